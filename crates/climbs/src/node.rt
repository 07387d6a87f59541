// The digests of leaves and nodes. Those that take slices answer as a digest does; those over whole nodes always fit.
ghost use Rattle.std.specs.Prelude.{◌+◌, ◌<◌, ◌≤◌, length, MatchResult, ◌≡◌};
ghost use Rattle.octets.specs.Outcome.{outcome};
ghost use Rattle.hash.specs.Digests.{digest_out, digest_outcome, parts_limit};
ghost use Rattle.hash.specs.Refusals.{told};
ghost use Rattle.merkle.specs.Climb.{above, beside, join_of, leaf_of, plain_rule};
ghost use Rattle.merkle.specs.Tree.{paired, side};

use hash::digest::Hash;
use hash::limits::DIGEST_LEN;
use hash::refusal::DigestRefusal;
use octets::misfit::Misfit;

// The lead byte of what is hashed for a leaf, and that for a pair of nodes: so that no node passes for a leaf.
pub const LEAF: u8 = 0x00;

pub const PAIR: u8 = 0x01;

// What stands at `place` and its sibling, the left one first.
pub fn in_order<T>(node: T, place: usize, sibling: T) -> (T, T)
    ensures { result ≡ paired (λ l r. (l, r)) (side place) node sibling }
{
    if place % 2 == 0 {
        (node, sibling)
    } else {
        (sibling, node)
    }
}

// Writes the node of the leaf `value`.
pub fn leaf_digest<H: Hash>(value: &[u8], out: &mut [u8]) -> Result<(), DigestRefusal>
    ensures answer { outcome told result ≡ digest_outcome (length value.now) (length out.old) }
    ensures written { out.new ≡ digest_out (length value.now) out.old (leaf_of plain_rule H.meaning value.now) }
{
    H::digest(LEAF, value, &[], out)
}

// Writes the node over `left` and `right`.
pub fn node_digest<H: Hash>(left: &[u8], right: &[u8], out: &mut [u8]) -> Result<(), DigestRefusal>
    ensures answer { outcome told result ≡ digest_outcome (length left.now + length right.now) (length out.old) }
    ensures written { out.new ≡ digest_out (length left.now + length right.now) out.old (join_of plain_rule H.meaning left.now right.now) }
{
    H::digest(PAIR, left, right, out)
}

// Writes the node above `node`, which stands at `place` and has `sibling` beside it.
pub fn parent_digest<H: Hash>(
    node: &[u8],
    place: usize,
    sibling: &[u8],
    out: &mut [u8],
) -> Result<(), DigestRefusal>
    ensures answer { outcome told result ≡ digest_outcome (length node.now + length sibling.now) (length out.old) }
    ensures written { out.new ≡ digest_out (length node.now + length sibling.now) out.old (above plain_rule H.meaning (beside (side place) sibling.now) node.now) }
{
    let (left, right) = in_order(node, place, sibling);
    node_digest::<H>(left, right, out)
}

// The node of the leaf `value`, where it is not too long.
pub fn leaf<H: Hash>(value: &[u8]) -> Result<[u8; DIGEST_LEN], Misfit>
    ensures { MatchResult result (λ node. (length value.now ≤ parts_limit) × (node ≡ leaf_of plain_rule H.meaning value.now)) (λ _. parts_limit < length value.now) }
{
    let mut node = [0u8; DIGEST_LEN];
    leaf_digest::<H>(value, &mut node).map_err(|_| Misfit)?;
    Ok(node)
}

// The node over two nodes.
pub fn join<H: Hash>(left: &[u8; DIGEST_LEN], right: &[u8; DIGEST_LEN]) -> [u8; DIGEST_LEN]
    ensures { result ≡ join_of plain_rule H.meaning left.now right.now }
{
    let mut node = [0u8; DIGEST_LEN];
    // Two nodes are never too long, and the buffer is a node.
    let _ = node_digest::<H>(left, right, &mut node);
    node
}

// The node above one that stands at `place` and has `sibling` beside it.
pub fn parent<H: Hash>(
    node: &[u8; DIGEST_LEN],
    place: usize,
    sibling: &[u8; DIGEST_LEN],
) -> [u8; DIGEST_LEN]
    ensures { result ≡ above plain_rule H.meaning (beside (side place) sibling.now) node.now }
{
    let (left, right) = in_order(node, place, sibling);
    join::<H>(left, right)
}
