// What every digest call checks first.
ghost use Rattle.std.specs.Prelude.{◌≡◌, ◌+◌};
ghost use Rattle.octets.specs.Outcome.{outcome};
ghost use Rattle.hash.specs.Digests.{digest_outcome};
ghost use Rattle.hash.specs.Refusals.{told};

use crate::refusal::DigestRefusal;

// The bytes of a digest.
pub const DIGEST_LEN: usize = 32;

// The most bytes that the two parts of a digest may have together.
pub const PARTS_LIMIT: usize = 4096;

// The most bytes of a message: a lead byte and the two parts of a digest.
pub const MESSAGE_LIMIT: usize = PARTS_LIMIT + 1;

// Whether a digest of parts with these lengths can be written to a buffer of `out` bytes.
pub fn admit(left: usize, right: usize, out: usize) -> Result<(), DigestRefusal>
    ensures { outcome told result ≡ digest_outcome (left + right) out }
{
    if left > PARTS_LIMIT || right > PARTS_LIMIT - left {
        return Err(DigestRefusal::TooLong);
    }
    if out != DIGEST_LEN {
        return Err(DigestRefusal::WrongLength);
    }
    Ok(())
}

impl DigestRefusal {
    // The number by which the call refuses.
    pub fn number(self) -> u8
        ensures { result ≡ (told self).number }
    {
        match self {
            DigestRefusal::TooLong => 4,
            DigestRefusal::WrongLength => 3,
        }
    }
}
