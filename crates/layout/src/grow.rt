// Growing a tree from its leaves.
ghost use Rattle.std.specs.Prelude.{◌≡◌, ◌+◌, ◌*◌, ◌^◌, ◌<◌, length};
ghost use Rattle.std.specs.Result.{is_ok};
ghost use Rattle.layout.specs.Answers.{grown, is_tree};
ghost use Rattle.merkle.specs.Climb.{join_of, plain_rule, slot};
ghost use Rattle.merkle.specs.Layout.{tree_layout, tree_len};

use crate::entry::join_entries;
use crate::size::{is_tree, leaves};
use hash::digest::Hash;
use octets::misfit::Misfit;

// Writes the entries behind the first `n`, which are the leaves.
fn join_all<H: Hash>(tree: &mut [u8], depth: usize, n: usize)
    requires { (n ≡ 2 ^ depth) × (length tree.old ≡ tree_len depth) }
    ensures { tree.new ≡ tree_layout (join_of plain_rule H.meaning) depth (λ i. slot i tree.old) }
{
    // By index, since each node is read and written in the one buffer, of which no iterator lends both.
    for i in 0..n - 1 {
        // All three entries are in the tree.
        let _ = join_entries::<H>(tree, 2 * i, 2 * i + 1, n + i);
    }
}

// Writes all entries of a tree of this depth but its leaves' digests, which stand in front. Where the buffer has not the length of
// such a tree, it refuses and writes nothing.
pub fn grow<H: Hash>(tree: &mut [u8], depth: usize) -> Result<(), Misfit>
    ensures answer { is_ok result ≡ is_tree depth (length tree.old) }
    ensures written { tree.new ≡ grown H.meaning depth tree.old }
{
    if !is_tree(depth, tree.len()) {
        return Err(Misfit);
    }
    join_all::<H>(tree, depth, leaves(depth));
    Ok(())
}
