// Why a call on a store is refused. A square's calls refuse by these and by two more, which no caller of a store has to look for.
use thiserror::Error;

#[derive(Clone, Copy, PartialEq, Eq, Debug, Error)]
pub enum StoreRefusal {
    #[error("k is not 1, 2, 4, 8, 16 or 32")]
    WrongWidth,
    #[error("the share size is not between 1 and 512 bytes")]
    WrongShareSize,
    // A buffer or an input has not the length that it must have.
    #[error("a buffer or an input has a wrong length")]
    WrongLength,
    // A mark is over 1.
    #[error("a value is out of range")]
    OutOfRange,
    #[error("the cell is outside the square")]
    OutsideSquare,
}
