// Why a call on headers, squares, evidence or images is refused.
ghost use Rattle.header.specs.declared.refusal.SquareRefusal.TheVariants.{OutOfRange, WrongLength};
ghost use Rattle.std.specs.Prelude.{◌≡◌};

use crate::cell::NoAxis;
use octets::misfit::Misfit;
use thiserror::Error;

#[derive(Clone, Copy, PartialEq, Eq, Debug, Error)]
pub enum SquareRefusal {
    #[error("k is not 1, 2, 4, 8, 16 or 32")]
    WrongWidth,
    #[error("the share size is not between 1 and 512 bytes")]
    WrongShareSize,
    // A buffer or an input has not the length that it must have.
    #[error("a buffer or an input has a wrong length")]
    WrongLength,
    // An axis is over 1.
    #[error("a value is out of range")]
    OutOfRange,
    // The header has another hash kind than the call.
    #[error("the header has another hash kind")]
    OtherHash,
    #[error("the cell is outside the square")]
    OutsideSquare,
    #[error("the share does not verify")]
    DoesNotVerify,
}

impl From<NoAxis> for SquareRefusal {
    ghost from_gives = { λ _ e. e ≡ OutOfRange };

    fn from(_: NoAxis) -> SquareRefusal {
        SquareRefusal::OutOfRange
    }
}

// Sizes that do not fit are lengths.
impl From<Misfit> for SquareRefusal {
    ghost from_gives = { λ _ e. e ≡ WrongLength };

    fn from(_: Misfit) -> SquareRefusal {
        SquareRefusal::WrongLength
    }
}
