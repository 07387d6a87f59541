// Extending data.
ghost use Rattle.octets.specs.Outcome.{outcome_by};
ghost use Rattle.octets.specs.Written.{written};
ghost use Rattle.commitment.specs.Commit.{blank};
ghost use Rattle.commitment.specs.Roots.{roots_of};
ghost use Rattle.extension.specs.Square.{extension};
ghost use Rattle.header.specs.Fields.{fields_of};
ghost use Rattle.header.specs.Refusals.{told};
ghost use Rattle.square.specs.Extend.{ExtendStands, extend_outcome};
ghost use Rattle.std.specs.Prelude.{◌≡◌, length};

use commitment::commit::commit;
use erasure::code::Code;
use extension::fill::fill;
use hash::digest::Hash;
use hash::limits::DIGEST_LEN;
use header::header::Header;
use header::make::make_header;
use header::refusal::SquareRefusal;

// Extends k by k shares to a square of 2k by 2k: rows 0 to k - 1 first, then all columns. Writes the square and the roots of its lines,
// and gives its header.
pub fn extend<H: Hash, C: Code>(
    k: usize,
    s: usize,
    shares: &[u8],
    square: &mut [u8],
    roots: &mut [u8],
) -> Result<Header, SquareRefusal>
    ensures answer { outcome_by fields_of told result ≡ extend_outcome H.Hash.meaning C.Code.table (blank k s H.Hash.KIND C.Code.KIND) shares.now (length square.old) (length roots.old) }
    ensures square { square.new ≡ written (extend_outcome H.Hash.meaning C.Code.table (blank k s H.Hash.KIND C.Code.KIND) shares.now (length square.old) (length roots.old)) (extension C.Code.table k s shares.now) square.old }
    ensures roots { roots.new ≡ written (extend_outcome H.Hash.meaning C.Code.table (blank k s H.Hash.KIND C.Code.KIND) shares.now (length square.old) (length roots.old)) (roots_of H.Hash.meaning (blank k s H.Hash.KIND C.Code.KIND) (extension C.Code.table k s shares.now)) roots.old }
    ensures stands { ExtendStands H.Hash.meaning C.Code.table (blank k s H.Hash.KIND C.Code.KIND) shares.now }
{
    let h = make_header(k, s, H::KIND, C::KIND, &[0u8; DIGEST_LEN])?;
    let n = h.lengths();
    if shares.len() != n.data || square.len() != n.square || roots.len() != n.roots {
        return Err(SquareRefusal::WrongLength);
    }
    // The lengths fit, so nothing is refused.
    let _ = fill::<C>(k, s, shares, square);
    commit::<H, C>(k, s, square, roots)
}
