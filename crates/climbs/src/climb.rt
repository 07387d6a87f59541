// Climbs.
ghost use Rattle.std.specs.Prelude.{length, cond, true, false, MatchResult, ◌≡◌};
ghost use Rattle.std.specs.Result.{is_ok};
ghost use Rattle.climbs.specs.Answers.{climb_leaf_fits, climb_node_fits, is_path};
ghost use Rattle.merkle.specs.Climb.{climb, climb_leaf, climb_node, levels, past, plain_rule, slots};

use crate::node::{leaf, parent};
use hash::digest::Hash;
use hash::limits::DIGEST_LEN;
use octets::misfit::Misfit;

// The siblings of a path, which is a row of digests.
fn siblings(path: &[u8]) -> Result<&[[u8; DIGEST_LEN]], Misfit>
    ensures { MatchResult result (λ s. (is_path (length path.now) ≡ true) × (s.now ≡ slots (levels path.now) path.now)) (λ _. is_path (length path.now) ≡ false) }
{
    let (siblings, rest) = path.as_chunks();
    if !rest.is_empty() {
        return Err(Misfit);
    }
    Ok(siblings)
}

// Climbs from `node` past all of its siblings and of those above.
fn climb_up<H: Hash>(
    mut node: [u8; DIGEST_LEN],
    mut place: usize,
    siblings: &[[u8; DIGEST_LEN]],
) -> [u8; DIGEST_LEN]
    ensures { result ≡ climb plain_rule H.meaning (past place siblings.now) node }
{
    for sibling in siblings {
        node = parent::<H>(&node, place, sibling);
        place /= 2;
    }
    node
}

// Climbs from `node`, which stands at `place`, by all digests of `path`, and leaves the end in `node`. Where `node` is no digest or
// `path` no row of them, it refuses and writes nothing.
pub fn climb<H: Hash>(node: &mut [u8], place: usize, path: &[u8]) -> Result<(), Misfit>
    ensures answer { is_ok result ≡ climb_node_fits (length node.old) (length path.now) }
    ensures written { node.new ≡ cond (climb_node_fits (length node.old) (length path.now)) (climb_node H.meaning place path.now node.old) node.old }
{
    let Ok(start) = <[u8; DIGEST_LEN]>::try_from(&*node) else {
        return Err(Misfit);
    };
    let end = climb_up::<H>(start, place, siblings(path)?);
    node.copy_from_slice(&end);
    Ok(())
}

// Climbs from the value of the leaf at `place` and writes the end. Where the value is too long, `out` is no digest or `path` no row of
// them, it refuses and writes nothing.
pub fn climb_leaf<H: Hash>(
    value: &[u8],
    place: usize,
    path: &[u8],
    out: &mut [u8],
) -> Result<(), Misfit>
    ensures answer { is_ok result ≡ climb_leaf_fits (length value.now) (length path.now) (length out.old) }
    ensures written { out.new ≡ cond (climb_leaf_fits (length value.now) (length path.now) (length out.old)) (climb_leaf H.meaning place path.now value.now) out.old }
{
    if out.len() != DIGEST_LEN {
        return Err(Misfit);
    }
    // Looked at before the value is hashed, which costs much more.
    let row = siblings(path)?;
    let end = climb_up::<H>(leaf::<H>(value)?, place, row);
    out.copy_from_slice(&end);
    Ok(())
}
