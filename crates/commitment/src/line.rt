// The tree of one line of a square.
ghost use Rattle.std.specs.Prelude.{◌≡◌, ℕ, ◌+◌, ◌*◌, ◌<◌, ◌≤◌, ◌&&◌, nat_lt, ◌==◌, length, if◌then◌else◌};
ghost use Rattle.std.specs.Result.{is_ok};
ghost use Rattle.commitment.specs.Roots.{line_fits, line_leaf, line_tree};
ghost use Rattle.hash.specs.Digests.{digest_len};
ghost use Rattle.header.specs.Fields.{fields_of};
ghost use Rattle.header.specs.Sizes.{axis_tree_len, cell_on, line_count};
ghost use Rattle.merkle.specs.Climb.{slot};

use crate::cells::Cells;
use crate::stride::{Stride, put_leaves};
use hash::digest::Hash;
use header::header::Header;
use header::lengths::Lengths;
use layout::grow::grow;
use octets::misfit::Misfit;

// In a square of this width, the cells of line n. A line goes by its leaf in the data tree: rows come first, then columns.
fn cells_of(width: usize, n: usize) -> Stride
    requires { (width ≤ 64) × (n < 2 * width) }
    ensures { (p : ℕ) → result.first + p * result.step ≡ cell_on width n p }
{
    if n < width {
        Stride {
            first: n * width,
            step: 1,
        }
    } else {
        Stride {
            first: n - width,
            step: width,
        }
    }
}

impl Cells<'_> {
    // Writes the digests of the cells of line n as entries one after the other.
    pub(crate) fn put_line<H: Hash>(&self, n: usize, entries: &mut [u8])
        requires line { n < 2 * self.now.lengths.width }
        requires room { digest_len * self.now.lengths.width ≤ length entries.old }
        ensures { (j : ℕ) → j < self.now.lengths.width → slot j entries.new ≡ line_leaf H.meaning self.now.lengths.width self.now.lengths.share self.now.shares.now n j }
    {
        let Lengths { width, share, .. } = self.lengths;
        put_leaves::<H>(self.shares, share, cells_of(width, n), width, entries);
    }

    // Lays out the tree of line n. Where the block has no such line, or the buffer is not a line's tree, it refuses and writes nothing.
    pub fn line_tree<H: Hash>(&self, n: usize, tree: &mut [u8]) -> Result<(), Misfit>
        ensures answer { is_ok result ≡ (nat_lt n (line_count (fields_of self.now.header.now)) && length tree.old == axis_tree_len (fields_of self.now.header.now)) }
        ensures written { tree.new ≡ (if nat_lt n (line_count (fields_of self.now.header.now)) && length tree.old == axis_tree_len (fields_of self.now.header.now) then line_tree H.meaning (fields_of self.now.header.now) self.now.shares.now n else tree.old) }
    {
        if n >= self.lengths.lines || tree.len() != self.lengths.axis_tree {
            return Err(Misfit);
        }
        self.put_line::<H>(n, tree);
        grow::<H>(tree, self.lengths.depth)
    }
}

// Lays out the tree of line n of a square. Where the block has no such line, or the lengths are not the block's, it refuses and
// writes nothing.
pub fn line_tree<H: Hash>(
    h: &Header,
    square: &[u8],
    n: usize,
    tree: &mut [u8],
) -> Result<(), Misfit>
    ensures answer { is_ok result ≡ line_fits (fields_of h.now) n (length square.now) (length tree.old) }
    ensures written { tree.new ≡ (if line_fits (fields_of h.now) n (length square.now) (length tree.old) then line_tree H.meaning (fields_of h.now) square.now n else tree.old) }
{
    Cells::of(h, square)?.line_tree::<H>(n, tree)
}
