// The strings that are hashed on the way up, compared and written.
ghost use Rattle.std.specs.Prelude.{◌≡◌, ◌+◌, ◌*◌, ◌<◌, ◌≤◌, ◌∷◌, ◌++◌, length, not};
ghost use Rattle.std.specs.Str.{bytes_eq};
ghost use Rattle.collisions.specs.Finding.{at_front};
ghost use Rattle.hash.specs.Digests.{digest_len, parts_limit};
ghost use Rattle.merkle.specs.Climb.{alone, beside, input, leaf_of, plain_rule};
ghost use Rattle.merkle.specs.Tree.{side};

use climbs::node::{LEAF, PAIR, in_order, join, leaf_digest};
use hash::digest::Hash;
use hash::limits::DIGEST_LEN;
use octets::splice::splice;

// Writes a lead byte and two parts to the front, and answers how many bytes they are.
fn put_joined(lead: u8, left: &[u8], right: &[u8], out: &mut [u8]) -> usize
    requires { length left.now + length right.now < length out.old }
    ensures len { result ≡ length (lead ∷ (left.now ++ right.now)) }
    ensures written { out.new ≡ at_front (lead ∷ (left.now ++ right.now)) out.old }
{
    // The buffer has room for all three.
    let _ = splice(out, 0, &[lead]);
    let _ = splice(out, 1, left);
    let _ = splice(out, 1 + left.len(), right);
    1 + left.len() + right.len()
}

// The node of a leaf's value. `climbs::node::leaf` refuses one that is too long, and no search would have a use for that refusal.
pub(crate) fn leaf_node<H: Hash>(value: &[u8]) -> [u8; DIGEST_LEN]
    requires { length value.now ≤ parts_limit }
    ensures { result ≡ leaf_of plain_rule H.meaning value.now }
{
    let mut node = [0u8; DIGEST_LEN];
    // The value is short enough, and the buffer is a node.
    let _ = leaf_digest::<H>(value, &mut node);
    node
}

// Writes what is hashed for a leaf, and answers how many bytes that is.
pub(crate) fn put_leaf(value: &[u8], out: &mut [u8]) -> usize
    requires { length value.now < length out.old }
    ensures len { result ≡ length (input plain_rule alone value.now) }
    ensures written { out.new ≡ at_front (input plain_rule alone value.now) out.old }
{
    put_joined(LEAF, value, &[], out)
}

// Two nodes that are hashed together, the left one first. Clauses write out what is hashed, the lead byte and both nodes: a model would
// put a name for it and hide the two fields, which `==` compares.
#[derive(Clone, Copy, PartialEq, Eq)]
pub(crate) struct Children {
    left: [u8; DIGEST_LEN],
    right: [u8; DIGEST_LEN],
}

impl Children {
    // A node that stands at `place`, and its sibling.
    pub(crate) fn of(node: [u8; DIGEST_LEN], place: usize, sibling: [u8; DIGEST_LEN]) -> Self
        ensures { 1 ∷ (result.left ++ result.right) ≡ input plain_rule (beside (side place) sibling) node }
    {
        let (left, right) = in_order(node, place, sibling);
        Children { left, right }
    }

    // The node over them.
    pub(crate) fn parent<H: Hash>(&self) -> [u8; DIGEST_LEN]
        ensures { result ≡ H.meaning (1 ∷ (self.now.left ++ self.now.right)) }
    {
        join::<H>(&self.left, &self.right)
    }

    // Whether what is hashed for it is not what is hashed over two others.
    #[tactic(auto, using(crate::proofs::Levels::children_differ))]
    pub(crate) fn differ(&self, other: &Children) -> bool
        ensures { result ≡ not (bytes_eq (1 ∷ (self.now.left ++ self.now.right)) (1 ∷ (other.now.left ++ other.now.right))) }
    {
        self != other
    }

    // Writes what is hashed for it, and answers how many bytes that is.
    pub(crate) fn put(&self, out: &mut [u8]) -> usize
        requires { 2 * digest_len < length out.old }
        ensures len { result ≡ length (1 ∷ (self.now.left ++ self.now.right)) }
        ensures written { out.new ≡ at_front (1 ∷ (self.now.left ++ self.now.right)) out.old }
    {
        put_joined(PAIR, &self.left, &self.right, out)
    }
}
