// Headers of their parts, or of k and a share size alone.
ghost use Rattle.octets.specs.Outcome.{outcome_by};
ghost use Rattle.header.specs.Fields.{fields_of, header_outcome, shape};
ghost use Rattle.header.specs.Refusals.{told};
ghost use Rattle.std.specs.Prelude.{◌≡◌};

use crate::header::Header;
use crate::refusal::SquareRefusal;
use erasure::limits::{ok_size, ok_width};
use hash::limits::DIGEST_LEN;

// Makes a header of its parts.
pub fn make_header(
    k: usize,
    s: usize,
    hash_kind: u8,
    code_kind: u8,
    data_root: &[u8],
) -> Result<Header, SquareRefusal>
    ensures { outcome_by fields_of told result ≡ header_outcome (record { k = k; s = s; hash_kind = hash_kind; code_kind = code_kind; data_root = data_root.now }) }
{
    if !ok_width(k) {
        return Err(SquareRefusal::WrongWidth);
    }
    if !ok_size(s) {
        return Err(SquareRefusal::WrongShareSize);
    }
    let Ok(data_root) = data_root.try_into() else {
        return Err(SquareRefusal::WrongLength);
    };
    Ok(Header {
        k: k as u16,
        s: s as u16,
        hash_kind,
        code_kind,
        data_root,
    })
}

impl Header {
    // The header of the smallest block, without kinds and root.
    pub fn smallest() -> Header
        ensures { fields_of result ≡ shape 1 1 }
    {
        Header {
            k: 1,
            s: 1,
            hash_kind: 0,
            code_kind: 0,
            data_root: [0u8; DIGEST_LEN],
        }
    }

    // A header of this k and this share size, for lengths and cells alone.
    pub fn of_shape(k: usize, s: usize) -> Result<Header, SquareRefusal>
        ensures { outcome_by fields_of told result ≡ header_outcome (shape k s) }
    {
        make_header(k, s, 0, 0, &[0u8; DIGEST_LEN])
    }
}

impl SquareRefusal {
    // The number by which the call refuses, as the C interface has it; so no variant may change its own.
    pub fn number(self) -> u8
        ensures { result ≡ (told self).number }
    {
        match self {
            SquareRefusal::WrongWidth => 1,
            SquareRefusal::WrongShareSize => 2,
            SquareRefusal::WrongLength => 3,
            SquareRefusal::OutOfRange => 11,
            SquareRefusal::OtherHash => 13,
            SquareRefusal::OutsideSquare => 15,
            SquareRefusal::DoesNotVerify => 20,
        }
    }
}
