// How long a laid-out tree is.
ghost use Rattle.layout.specs.Answers.{is_tree, leaf_count};
ghost use Rattle.std.specs.Prelude.{◌≡◌};

use hash::limits::DIGEST_LEN;

// The most levels that a tree here has above its leaves.
pub const DEPTH_LIMIT: usize = 16;

// How many leaves a tree of this depth has. One that is too deep is no tree and has none: a count needs no `Option` to say so, and a
// place is a leaf's just where it is below the count.
pub fn leaves(depth: usize) -> usize
    ensures { result ≡ leaf_count depth }
{
    if depth > DEPTH_LIMIT {
        return 0;
    }
    1 << depth
}

// Whether `len` bytes are those of a tree of this depth.
pub fn is_tree(depth: usize, len: usize) -> bool
    ensures { result ≡ is_tree depth len }
{
    depth <= DEPTH_LIMIT && len == DIGEST_LEN * (2 * leaves(depth) - 1)
}
