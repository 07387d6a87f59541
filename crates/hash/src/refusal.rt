// Why a digest is refused.
use thiserror::Error;

#[derive(Clone, Copy, PartialEq, Eq, Debug, Error)]
pub enum DigestRefusal {
    // The two parts have over 4,096 bytes together.
    #[error("the parts have over 4096 bytes together")]
    TooLong,
    // The buffer has not the length of a digest.
    #[error("the buffer has not the length of a digest")]
    WrongLength,
}
