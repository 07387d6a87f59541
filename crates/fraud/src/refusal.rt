// Why a proof of bad encoding is refused, or what is asked with it.
ghost use Rattle.fraud.specs.declared.refusal.FraudRefusal.TheVariants.{Unreadable};
ghost use Rattle.std.specs.Prelude.{◌≡◌};

use thiserror::Error;
use wire::refusal::ReadRefusal;

#[derive(Clone, Copy, PartialEq, Eq, Debug, Error)]
pub enum FraudRefusal {
    // The data, a string or the scratch square has not the length that it must have.
    #[error("a buffer or an input has a wrong length")]
    WrongLength,
    // The header has another hash kind than the call.
    #[error("the header has another hash kind")]
    OtherHash,
    // The header has another code kind than the call.
    #[error("the header has another code kind")]
    OtherCode,
    // The bytes are no proof in this block.
    #[error("{0}")]
    Unreadable(ReadRefusal),
    #[error("the claimed root is not under the header's data root")]
    RootNotCommitted,
    #[error("the places of the witnesses do not strictly increase")]
    PlacesNotRising,
    // The number of the first witness that does not verify, from 0.
    #[error("witness {0} does not verify")]
    DoesNotVerify(usize),
    #[error("the line that the proof claims is well coded")]
    WellCoded,
    // The header is not that of these data.
    #[error("the header is not that of these data")]
    OtherData,
}

impl From<ReadRefusal> for FraudRefusal {
    ghost from_gives = { λ e made. made ≡ Unreadable e };

    fn from(e: ReadRefusal) -> FraudRefusal {
        FraudRefusal::Unreadable(e)
    }
}
