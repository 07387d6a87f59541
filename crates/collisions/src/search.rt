// Two climbs compared level by level.
ghost use Rattle.std.specs.Prelude.{◌≡◌, ◌∷◌, ◌++◌, length, None, Some};
ghost use Rattle.std.specs.ControlFlow.{MatchControlFlow};
ghost use Rattle.merkle.specs.Binding.{found};
ghost use Rattle.merkle.specs.Climb.{climb, past, plain_rule};

use crate::strings::Children;
use hash::digest::Hash;
use hash::limits::DIGEST_LEN;
use std::ops::ControlFlow;

// Compares the climbs from two nodes past their siblings. It breaks off at the first level where what is hashed collides, and else
// goes on with the ends.
pub(crate) fn search_nodes<H: Hash>(
    mut a: [u8; DIGEST_LEN],
    mut b: [u8; DIGEST_LEN],
    mut place: usize,
    path_a: &[[u8; DIGEST_LEN]],
    path_b: &[[u8; DIGEST_LEN]],
) -> ControlFlow<(Children, Children), ([u8; DIGEST_LEN], [u8; DIGEST_LEN])>
    requires { length path_a.now ≡ length path_b.now }
    ensures { MatchControlFlow result
        (λ ends. (found H.meaning (past place path_a.now) (past place path_b.now) a b ≡ None) × (ends.0 ≡ climb plain_rule H.meaning (past place path_a.now) a) × (ends.1 ≡ climb plain_rule H.meaning (past place path_b.now) b))
        (λ hit. found H.meaning (past place path_a.now) (past place path_b.now) a b ≡ Some (record { one = 1 ∷ (hit.0.left ++ hit.0.right); other = 1 ∷ (hit.1.left ++ hit.1.right) })) }
{
    for (sibling_a, sibling_b) in path_a.iter().zip(path_b) {
        let below_a = Children::of(a, place, *sibling_a);
        let below_b = Children::of(b, place, *sibling_b);
        a = below_a.parent::<H>();
        b = below_b.parent::<H>();
        if below_a.differ(&below_b) && a == b {
            return ControlFlow::Break((below_a, below_b));
        }
        place /= 2;
    }
    ControlFlow::Continue((a, b))
}
