// Why bytes are refused.
use thiserror::Error;

// What is wrong with a record.
#[derive(Clone, Copy, PartialEq, Eq, Debug, Error)]
pub enum Fault {
    #[error("the bytes end before the record does")]
    CutShort,
    #[error("the record has an unknown kind")]
    UnknownKind,
    // The kind is known and not due here, or the bytes end where something is due.
    #[error("another record is due here")]
    NotDue,
    // The body has another length than its kind has in this block.
    #[error("the record's body has a wrong length")]
    WrongBody,
    // An axis, an index, a place, k or s is out of range.
    #[error("a value is out of range")]
    OutOfRange,
}

// The same, with the place of the record's first byte.
#[derive(Clone, Copy, PartialEq, Eq, Debug, Error)]
#[error("at byte {at}: {fault}")]
pub struct ReadRefusal {
    pub fault: Fault,
    pub at: usize,
}

// Why a record is not written.
#[derive(Clone, Copy, PartialEq, Eq, Debug, Error)]
pub enum WriteRefusal {
    // An axis, an index, a place, k or s is out of range.
    #[error("a value is out of range")]
    OutOfRange,
    // A part of the record or the target has not the length that it must have.
    #[error("a part or the target has a wrong length")]
    WrongLength,
}
