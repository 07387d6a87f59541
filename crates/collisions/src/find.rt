// Finding the collision of two climbs that end alike.
ghost use Rattle.std.specs.Prelude.{◌≡◌, ◌-◌, ◌≤◌, true, false, length, None};
ghost use Rattle.std.specs.ControlFlow.{ForContinue, break_value};
ghost use Rattle.std.specs.Result.{is_ok, result_unwrap_or};
ghost use Rattle.collisions.specs.Finding.{Ends, Finds, Fitting, search_fits, strings_fit, two_fit};
ghost use Rattle.merkle.specs.Climb.{climb, from_leaf, levels, plain_rule, through_two};

use crate::branch::{Branch, Pair};
use crate::search::search_nodes;
use crate::strings::{leaf_node, put_leaf};
use hash::digest::Hash;
use hash::limits::{DIGEST_LEN, PARTS_LIMIT};
use octets::misfit::Misfit;
use std::ops::ControlFlow;

// Whether a search takes these leaves, and buffers for strings of these lengths.
fn strings_fit(a: Branch<'_>, b: Branch<'_>, string_a: usize, string_b: usize) -> bool
    ensures { result ≡ strings_fit (length a.entry.value.now) (length b.entry.value.now) (length a.entry.path.now) (length b.entry.path.now) string_a string_b }
{
    a.value.len() == b.value.len()
        && a.value.len() <= PARTS_LIMIT
        && a.path.len() == b.path.len()
        && a.path.len() % DIGEST_LEN == 0
        && a.value.len() < string_a
        && a.value.len() < string_b
        && 2 * DIGEST_LEN < string_a
        && 2 * DIGEST_LEN < string_b
}

// Breaks off with the common length of the strings that collide first, which it writes, and else goes on with the ends. The buffers come
// one by one, as clauses could not name what a `Pair` that is handed on whole holds in the end.
fn find<H: Hash>(
    a: Branch<'_>,
    b: Branch<'_>,
    place: usize,
    string_a: &mut [u8],
    string_b: &mut [u8],
) -> ControlFlow<usize, ([u8; DIGEST_LEN], [u8; DIGEST_LEN])>
    requires { Fitting (length a.value.now) (length b.value.now) (length a.path.now) (length b.path.now) (length string_a.old) (length string_b.old) }
    ensures finds { Finds H.meaning (from_leaf (levels a.entry.path.now) place a.entry.path.now) (from_leaf (levels b.entry.path.now) place b.entry.path.now) a.entry.value.now b.entry.value.now (break_value result) string_a.old string_b.old string_a.new string_b.new }
    ensures ends { ForContinue result (λ ends. (ends.0 ≡ climb plain_rule H.meaning (from_leaf (levels a.entry.path.now) place a.entry.path.now) a.entry.value.now) × (ends.1 ≡ climb plain_rule H.meaning (from_leaf (levels b.entry.path.now) place b.entry.path.now) b.entry.value.now)) }
{
    let node_a = leaf_node::<H>(a.value);
    let node_b = leaf_node::<H>(b.value);
    if a.value != b.value && node_a == node_b {
        put_leaf(b.value, string_b);
        return ControlFlow::Break(put_leaf(a.value, string_a));
    }
    let (path_a, _) = a.path.as_chunks();
    let (path_b, _) = b.path.as_chunks();
    match search_nodes::<H>(node_a, node_b, place, path_a, path_b) {
        ControlFlow::Break((below_a, below_b)) => {
            below_b.put(string_b);
            ControlFlow::Break(below_a.put(string_a))
        }
        ControlFlow::Continue(ends) => ControlFlow::Continue(ends),
    }
}

// Compares the climbs from two leaves at one place, and at the first level where what is hashed differs and the digests agree writes
// both strings to the fronts of `strings` and answers their common length. Where there is no such level it answers none and writes
// the ends of the climbs, from which another tree may be climbed. Where the lengths do not fit it refuses and writes nothing.
pub fn find_collision<H: Hash>(
    a: Branch<'_>,
    b: Branch<'_>,
    place: usize,
    ends: Pair<'_>,
    strings: Pair<'_>,
) -> Result<Option<usize>, Misfit>
    ensures answer { is_ok result ≡ search_fits (length a.entry.value.now) (length b.entry.value.now) (length a.entry.path.now) (length b.entry.path.now) (length ends.entry.a.now) (length ends.entry.b.now) (length strings.entry.a.now) (length strings.entry.b.now) }
    ensures finds { search_fits (length a.entry.value.now) (length b.entry.value.now) (length a.entry.path.now) (length b.entry.path.now) (length ends.entry.a.now) (length ends.entry.b.now) (length strings.entry.a.now) (length strings.entry.b.now) ≡ true → Finds H.meaning (from_leaf (levels a.entry.path.now) place a.entry.path.now) (from_leaf (levels b.entry.path.now) place b.entry.path.now) a.entry.value.now b.entry.value.now (result_unwrap_or result None) strings.entry.a.now strings.entry.b.now strings.exit.0.now strings.exit.1.0.now }
    ensures ends { search_fits (length a.entry.value.now) (length b.entry.value.now) (length a.entry.path.now) (length b.entry.path.now) (length ends.entry.a.now) (length ends.entry.b.now) (length strings.entry.a.now) (length strings.entry.b.now) ≡ true → Ends H.meaning (from_leaf (levels a.entry.path.now) place a.entry.path.now) (from_leaf (levels b.entry.path.now) place b.entry.path.now) a.entry.value.now b.entry.value.now ends.entry.a.now ends.entry.b.now ends.exit.0.now ends.exit.1.0.now }
    ensures unfit { search_fits (length a.entry.value.now) (length b.entry.value.now) (length a.entry.path.now) (length b.entry.path.now) (length ends.entry.a.now) (length ends.entry.b.now) (length strings.entry.a.now) (length strings.entry.b.now) ≡ false → (ends.exit.0.now ≡ ends.entry.a.now) × (ends.exit.1.0.now ≡ ends.entry.b.now) × (strings.exit.0.now ≡ strings.entry.a.now) × (strings.exit.1.0.now ≡ strings.entry.b.now) }
{
    let Pair { a: end_a, b: end_b } = ends;
    let Pair {
        a: string_a,
        b: string_b,
    } = strings;
    if !strings_fit(a, b, string_a.len(), string_b.len())
        || end_a.len() != DIGEST_LEN
        || end_b.len() != DIGEST_LEN
    {
        return Err(Misfit);
    }
    match find::<H>(a, b, place, string_a, string_b) {
        ControlFlow::Break(len) => Ok(Some(len)),
        ControlFlow::Continue(nodes) => {
            end_a.copy_from_slice(&nodes.0);
            end_b.copy_from_slice(&nodes.1);
            Ok(None)
        }
    }
}

// Breaks off as `find` does, in the first tree or in the second.
fn find_in_two<H: Hash>(
    a: Branch<'_>,
    b: Branch<'_>,
    depth: usize,
    place: usize,
    next_place: usize,
    string_a: &mut [u8],
    string_b: &mut [u8],
) -> ControlFlow<usize, ([u8; DIGEST_LEN], [u8; DIGEST_LEN])>
    requires lengths { Fitting (length a.value.now) (length b.value.now) (length a.path.now) (length b.path.now) (length string_a.old) (length string_b.old) }
    requires depth { depth ≤ levels a.path.now }
    ensures { Finds H.meaning (through_two depth place (levels a.entry.path.now - depth) next_place a.entry.path.now) (through_two depth place (levels b.entry.path.now - depth) next_place b.entry.path.now) a.entry.value.now b.entry.value.now (break_value result) string_a.old string_b.old string_a.new string_b.new }
{
    let cut = DIGEST_LEN * depth;
    let low_a = Branch {
        path: &a.path[..cut],
        ..a
    };
    let low_b = Branch {
        path: &b.path[..cut],
        ..b
    };
    let (root_a, root_b) = find::<H>(low_a, low_b, place, string_a, string_b)?;
    let high_a = Branch {
        value: &root_a,
        path: &a.path[cut..],
    };
    let high_b = Branch {
        value: &root_b,
        path: &b.path[cut..],
    };
    find::<H>(high_a, high_b, next_place, string_a, string_b)
}

// The same through two trees, one after the other: up the `depth` levels of the first from the leaf at `place`, and by the rest of the
// path up the second, in which the first one's root is the value of the leaf at `next_place`.
pub fn find_collision_through<H: Hash>(
    a: Branch<'_>,
    b: Branch<'_>,
    depth: usize,
    place: usize,
    next_place: usize,
    strings: Pair<'_>,
) -> Result<Option<usize>, Misfit>
    ensures answer { is_ok result ≡ two_fit depth (length a.entry.value.now) (length b.entry.value.now) (length a.entry.path.now) (length b.entry.path.now) (length strings.entry.a.now) (length strings.entry.b.now) }
    ensures finds { two_fit depth (length a.entry.value.now) (length b.entry.value.now) (length a.entry.path.now) (length b.entry.path.now) (length strings.entry.a.now) (length strings.entry.b.now) ≡ true → Finds H.meaning (through_two depth place (levels a.entry.path.now - depth) next_place a.entry.path.now) (through_two depth place (levels b.entry.path.now - depth) next_place b.entry.path.now) a.entry.value.now b.entry.value.now (result_unwrap_or result None) strings.entry.a.now strings.entry.b.now strings.exit.0.now strings.exit.1.0.now }
    ensures unfit { two_fit depth (length a.entry.value.now) (length b.entry.value.now) (length a.entry.path.now) (length b.entry.path.now) (length strings.entry.a.now) (length strings.entry.b.now) ≡ false → (strings.exit.0.now ≡ strings.entry.a.now) × (strings.exit.1.0.now ≡ strings.entry.b.now) }
{
    let Pair {
        a: string_a,
        b: string_b,
    } = strings;
    if !strings_fit(a, b, string_a.len(), string_b.len()) || depth > a.path.len() / DIGEST_LEN {
        return Err(Misfit);
    }
    Ok(find_in_two::<H>(a, b, depth, place, next_place, string_a, string_b).break_value())
}
