// The lengths that extraction takes.
ghost use Rattle.extraction.specs.Extracted.{extract_fits};
ghost use Rattle.header.specs.Fields.{fields_of};
ghost use Rattle.header.specs.Sizes.{string_len};
ghost use Rattle.std.specs.Prelude.{◌≡◌};

use header::header::Header;

// The length of each string of a collision, the same for every block.
pub(crate) const STRING_LEN: usize = 513;

// Whether data and a scratch square of these lengths are the block's, beside two strings of their length.
pub(crate) fn lengths_fit(h: &Header, shares: usize, scratch: usize) -> bool
    ensures { result ≡ extract_fits (fields_of h.now) shares string_len string_len scratch }
{
    let n = h.lengths();
    shares == n.data && scratch == n.square
}
