// The ways in which the calls of this layer refuse.
ghost use Rattle.erasure.specs.Refusals.{told};
ghost use Rattle.erasure.specs.declared.refusal.CodeRefusal.TheVariants.{WrongLength};
ghost use Rattle.std.specs.Prelude.{◌≡◌};

use octets::misfit::Misfit;
use thiserror::Error;

#[derive(Clone, Copy, PartialEq, Eq, Debug, Error)]
pub enum CodeRefusal {
    #[error("k is not 1, 2, 4, 8, 16 or 32")]
    WrongWidth,
    #[error("the share size is not between 1 and 512 bytes")]
    WrongShareSize,
    // A buffer, or the list of places.
    #[error("a buffer or an input has a wrong length")]
    WrongLength,
    #[error("the places are not strictly increasing, or one is 2k or more")]
    PlacesNotRising,
}

impl From<Misfit> for CodeRefusal {
    ghost from_gives = { λ _ e. e ≡ WrongLength };

    fn from(_: Misfit) -> CodeRefusal {
        Self::WrongLength
    }
}

impl CodeRefusal {
    // The refusal's number, as the C interface has it; so no variant may change its own.
    pub fn number(self) -> u8
        ensures { result ≡ (told self).number }
    {
        match self {
            CodeRefusal::WrongWidth => 1,
            CodeRefusal::WrongShareSize => 2,
            CodeRefusal::WrongLength => 3,
            CodeRefusal::PlacesNotRising => 5,
        }
    }
}
