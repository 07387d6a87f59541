// The header of a square.
ghost use Rattle.octets.specs.Outcome.{outcome_by};
ghost use Rattle.octets.specs.Written.{written};
ghost use Rattle.commitment.specs.Commit.{blank, commit_outcome};
ghost use Rattle.commitment.specs.Roots.{roots_of};
ghost use Rattle.header.specs.Fields.{fields_of};
ghost use Rattle.header.specs.Refusals.{told};
ghost use Rattle.std.specs.Prelude.{◌≡◌, length};

use crate::cells::Cells;
use crate::run::Run;
use erasure::code::Code;
use hash::digest::Hash;
use hash::limits::DIGEST_LEN;
use header::header::Header;
use header::make::make_header;
use header::refusal::SquareRefusal;

// Writes the roots of a square, extended or not, and gives its header.
pub fn commit<H: Hash, C: Code>(
    k: usize,
    s: usize,
    square: &[u8],
    roots: &mut [u8],
) -> Result<Header, SquareRefusal>
    ensures answer { outcome_by fields_of told result ≡ commit_outcome H.Hash.meaning (blank k s H.Hash.KIND C.Code.KIND) square.now (length roots.old) }
    ensures written { roots.new ≡ written (commit_outcome H.Hash.meaning (blank k s H.Hash.KIND C.Code.KIND) square.now (length roots.old)) (roots_of H.Hash.meaning (blank k s H.Hash.KIND C.Code.KIND) square.now) roots.old }
{
    let mut h = make_header(k, s, H::KIND, C::KIND, &[0u8; DIGEST_LEN])?;
    let cells = Cells::of(&h, square)?;
    cells.roots::<H>(roots)?;
    let leaves = Run {
        values: roots,
        size: DIGEST_LEN,
        depth: cells.lengths.depth + 1,
    };
    h.data_root = leaves.root::<H>();
    Ok(h)
}
