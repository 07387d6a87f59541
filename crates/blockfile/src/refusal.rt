// Why a block file is refused.
ghost use Rattle.blockfile.specs.Refusals.{told};
ghost use Rattle.blockfile.specs.declared.refusal.FileRefusal.TheVariants.{Read};
ghost use Rattle.wire.specs.Refusals.{fault_number, refused_at};
ghost use Rattle.std.specs.Prelude.{◌≡◌};

use thiserror::Error;
use wire::refusal::{Fault, ReadRefusal};

#[derive(Clone, Copy, PartialEq, Eq, Debug, Error)]
pub enum FileRefusal {
    // The file has over 4,194,304 bytes.
    #[error("the file has over 4194304 bytes")]
    TooLong,
    #[error(transparent)]
    Read(ReadRefusal),
    // The share record at this place is for a cell that an earlier one was for.
    #[error("at byte {at}: the file has a share of this cell already")]
    SeenTwice { at: usize },
}

impl From<ReadRefusal> for FileRefusal {
    ghost from_gives = { λ e refusal. refusal ≡ Read e };

    fn from(e: ReadRefusal) -> FileRefusal {
        FileRefusal::Read(e)
    }
}

// A fault of the record at this place.
pub(crate) fn refused(fault: Fault, at: usize) -> FileRefusal
    ensures { told result ≡ refused_at (fault_number fault) at }
{
    FileRefusal::Read(ReadRefusal { fault, at })
}
