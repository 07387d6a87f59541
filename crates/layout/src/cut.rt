// Cutting roots and paths from laid-out trees.
ghost use Rattle.std.specs.Prelude.{◌≡◌, ◌+◌, ◌*◌, ◌^◌, ◌<◌, ◌≤◌, length};
ghost use Rattle.std.specs.Result.{is_ok};
ghost use Rattle.hash.specs.Digests.{digest_len};
ghost use Rattle.layout.specs.Answers.{cut_path, cut_root, depth_limit, path_fits, root_fits};
ghost use Rattle.merkle.specs.Layout.{path_of, root_of, tree_len};
ghost use Rattle.merkle.specs.Tree.{flip};

use crate::entry::copy_entry;
use crate::size::{is_tree, leaves};
use hash::limits::DIGEST_LEN;
use octets::misfit::Misfit;

// The place of a node's sibling.
fn sibling(place: usize) -> usize
    requires { place < 2 ^ 32 }
    ensures { result ≡ flip place }
{
    place ^ 1
}

// Writes the siblings of `place` and of the nodes above it. The tree has `n` leaves. It comes as a slice and its depth, as in the public
// calls: a struct of a whole tree would serve the two functions here that read one, and not `join_all`, which writes it.
fn copy_path(tree: &[u8], depth: usize, n: usize, place: usize, out: &mut [u8])
    requires { (n ≡ 2 ^ depth) × ((length tree.now ≡ tree_len depth) × ((place < n) × ((n < 2 ^ 32) × (length out.old ≡ digest_len * depth)))) }
    ensures { out.new ≡ path_of depth place tree.now }
{
    let mut place = place;
    // The level's first entry, and how many it has.
    let mut start = 0;
    let mut width = n;
    // By height, since a proof knows no byte of a buffer that was lent out in chunks.
    for h in 0..depth {
        // The tree has the sibling, and the path a place for it.
        let _ = copy_entry(tree, start + sibling(place), out, h);
        start += width;
        width /= 2;
        place /= 2;
    }
}

// Writes the last entry of a tree.
fn copy_root(tree: &[u8], depth: usize, out: &mut [u8])
    requires { (depth ≤ depth_limit) × ((length tree.now ≡ tree_len depth) × (length out.old ≡ digest_len)) }
    ensures { out.new ≡ root_of depth tree.now }
{
    // A tree has this entry, and the buffer is one.
    let _ = copy_entry(tree, 2 * leaves(depth) - 2, out, 0);
}

// Writes the root of a tree of this depth. Where the lengths do not fit, it refuses and writes nothing.
pub fn tree_root(tree: &[u8], depth: usize, out: &mut [u8]) -> Result<(), Misfit>
    ensures answer { is_ok result ≡ root_fits depth (length tree.now) (length out.old) }
    ensures written { out.new ≡ cut_root depth tree.now out.old }
{
    if !is_tree(depth, tree.len()) || out.len() != DIGEST_LEN {
        return Err(Misfit);
    }
    copy_root(tree, depth, out);
    Ok(())
}

// Writes the path of the leaf at `place` in a tree of this depth, siblings from the bottom up. Where there is no such leaf or the
// lengths do not fit, it refuses and writes nothing.
pub fn tree_path(tree: &[u8], depth: usize, place: usize, out: &mut [u8]) -> Result<(), Misfit>
    ensures answer { is_ok result ≡ path_fits depth place (length tree.now) (length out.old) }
    ensures written { out.new ≡ cut_path depth place tree.now out.old }
{
    if !is_tree(depth, tree.len()) || place >= leaves(depth) || out.len() != DIGEST_LEN * depth {
        return Err(Misfit);
    }
    copy_path(tree, depth, leaves(depth), place, out);
    Ok(())
}
