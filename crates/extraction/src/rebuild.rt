// The extension of the data, once more.
ghost use Rattle.commitment.specs.Roots.{data_root_of, roots_of};
ghost use Rattle.extraction.specs.Extracted.{is_header_of, square_of};
ghost use Rattle.header.specs.Fields.{fields_of};
ghost use Rattle.header.specs.Sizes.{data_len, roots_len, square_len};
ghost use Rattle.square.specs.Extend.{Extended};
ghost use Rattle.std.specs.Str.{bytes_eq};
ghost use Rattle.std.specs.Prelude.{◌≡◌, length};

use commitment::roots::square_roots;
use commitment::values::value_root;
use erasure::code::Code;
use extension::fill::fill;
use hash::digest::Hash;
use hash::limits::DIGEST_LEN;
use header::header::Header;

// Whether the data root over some roots is the header's.
fn is_header_of<H: Hash>(h: &Header, roots: &[u8]) -> bool
    requires { length roots.now ≡ roots_len (fields_of h.now) }
    ensures { result ≡ bytes_eq (data_root_of H.meaning (fields_of h.now) roots.now) h.now.data_root }
{
    let depth = h.lengths().depth;
    value_root::<H>(roots, DIGEST_LEN, depth + 1) == Some(h.data_root)
}

// Extends the data to the square, writes its roots, and answers whether the header is theirs. A bool: they are written
// either way, and an extraction has but one refusal for it. The buffers are still to be written, so no comparison can hold them yet.
pub(crate) fn rebuild<H: Hash, C: Code>(
    h: &Header,
    shares: &[u8],
    square: &mut [u8],
    roots: &mut [u8],
) -> bool
    requires { (length shares.now ≡ data_len (fields_of h.now)) × ((length square.old ≡ square_len (fields_of h.now)) × (length roots.old ≡ roots_len (fields_of h.now))) }
    ensures square { square.new ≡ square_of C.Code.table (fields_of h.now) shares.now }
    ensures roots { roots.new ≡ roots_of H.Hash.meaning (fields_of h.now) (square_of C.Code.table (fields_of h.now) shares.now) }
    ensures stands { Extended H.Hash.meaning C.Code.table (fields_of h.now) shares.now (square_of C.Code.table (fields_of h.now) shares.now) (roots_of H.Hash.meaning (fields_of h.now) (square_of C.Code.table (fields_of h.now) shares.now)) }
    ensures answer { result ≡ is_header_of H.Hash.meaning (fields_of h.now) (square_of C.Code.table (fields_of h.now) shares.now) }
{
    let _ = fill::<C>(h.k as usize, h.s as usize, shares, square);
    let _ = square_roots::<H>(h, square, roots);
    is_header_of::<H>(h, roots)
}
