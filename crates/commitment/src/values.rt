// Trees over values that lie one after the other.
ghost use Rattle.std.specs.Prelude.{◌≡◌, ℕ, ◌*◌, ◌^◌, ◌<◌, ◌≤◌, length, if◌then◌else◌, Some, None};
ghost use Rattle.std.specs.Result.{is_ok};
ghost use Rattle.commitment.specs.Values.{root_fits, tree_fits, value_leaf, value_root, value_tree};
ghost use Rattle.hash.specs.Digests.{digest_len};
ghost use Rattle.layout.specs.Answers.{depth_limit};
ghost use Rattle.merkle.specs.Climb.{join_of, plain_rule, slot};
ghost use Rattle.merkle.specs.Layout.{tree_len};
ghost use Rattle.merkle.specs.Tree.{root};

use crate::rooms::DATA_TREE_ROOM;
use crate::run::Run;
use crate::stride::{Stride, put_leaves};
use hash::digest::Hash;
use hash::limits::DIGEST_LEN;
use layout::cut::tree_root;
use layout::grow::grow;
use layout::size::{is_tree, leaves};
use octets::misfit::Misfit;

// Levels of the deepest data tree above its leaves.
const DATA_DEPTH: usize = 7;

// Grows the tree over the digests in front of `tree` and gives its root.
pub(crate) fn grown_root<H: Hash>(tree: &mut [u8], depth: usize) -> [u8; DIGEST_LEN]
    requires { (depth ≤ depth_limit) × (length tree.old ≡ tree_len depth) }
    ensures { result ≡ root (join_of plain_rule H.meaning) depth (λ i. slot i tree.old) }
{
    let mut top = [0u8; DIGEST_LEN];
    // The buffers are a tree and a digest, so nothing is refused.
    let _ = grow::<H>(tree, depth);
    let _ = tree_root(tree, depth, &mut top);
    top
}

impl Run<'_> {
    // Writes the digests of the values as entries one after the other.
    fn put_leaves<H: Hash>(&self, entries: &mut [u8])
        requires { digest_len * 2 ^ self.now.depth ≤ length entries.old }
        ensures { (j : ℕ) → j < 2 ^ self.now.depth → slot j entries.new ≡ value_leaf H.meaning self.now.size self.now.values.now j }
    {
        put_leaves::<H>(
            self.values,
            self.size,
            Stride { first: 0, step: 1 },
            leaves(self.depth),
            entries,
        );
    }

    // The root of the tree over the values.
    pub(crate) fn root<H: Hash>(&self) -> [u8; DIGEST_LEN]
        requires { self.now.depth ≤ 7 }
        ensures { result ≡ value_root H.meaning self.now.depth self.now.size self.now.values.now }
    {
        let mut space = [0u8; DATA_TREE_ROOM];
        let tree = &mut space[..DIGEST_LEN * (2 * leaves(self.depth) - 1)];
        self.put_leaves::<H>(tree);
        grown_root::<H>(tree, self.depth)
    }
}

// Lays out the tree over 2^depth values of `size` bytes. Where the lengths do not fit, it refuses and writes nothing.
pub fn value_tree<H: Hash>(
    values: &[u8],
    size: usize,
    depth: usize,
    tree: &mut [u8],
) -> Result<(), Misfit>
    ensures answer { is_ok result ≡ tree_fits depth size (length values.now) (length tree.old) }
    ensures written { tree.new ≡ (if tree_fits depth size (length values.now) (length tree.old) then value_tree H.meaning depth size values.now else tree.old) }
{
    let run = Run::of(values, size, depth)?;
    if !is_tree(depth, tree.len()) {
        return Err(Misfit);
    }
    run.put_leaves::<H>(tree);
    grow::<H>(tree, depth)
}

// The root of the tree over 2^depth values of `size` bytes; none where the values have another length or the tree would be deeper
// than a data tree.
pub fn value_root<H: Hash>(values: &[u8], size: usize, depth: usize) -> Option<[u8; DIGEST_LEN]>
    ensures { result ≡ (if root_fits depth size (length values.now) then Some (value_root H.meaning depth size values.now) else None) }
{
    if depth > DATA_DEPTH {
        return None;
    }
    let run = Run::of(values, size, depth).ok()?;
    Some(run.root::<H>())
}
