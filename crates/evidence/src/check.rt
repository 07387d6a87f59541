// Checking a share against a header.
ghost use Rattle.std.specs.Prelude.{◌≡◌, ◌+◌, ◌*◌, ◌≤◌, length};
ghost use Rattle.octets.specs.Outcome.{outcome};
ghost use Rattle.evidence.specs.Evidence.{check_outcome, verifies};
ghost use Rattle.hash.specs.Digests.{digest_len, parts_limit};
ghost use Rattle.header.specs.Fields.{fields_of};
ghost use Rattle.header.specs.Refusals.{told};
ghost use Rattle.merkle.specs.Climb.{climb, plain_rule, through_two};

use climbs::climb::climb_leaf;
use hash::digest::Hash;
use hash::limits::DIGEST_LEN;
use header::cell::{Axis, Cell};
use header::header::Header;
use header::refusal::SquareRefusal;

// Climbs through two trees, by the first `depth` digests of the path and then by the others, and gives the end. Here and below a share
// and its path stay two slices: callers hold them in buffers, stores and records of different forms, and none as one value.
fn climb_two<H: Hash>(
    share: &[u8],
    depth: usize,
    place: usize,
    leaf: usize,
    path: &[u8],
) -> [u8; DIGEST_LEN]
    requires { (depth ≤ 6) × ((length share.now ≤ parts_limit) × (length path.now ≡ digest_len * (2 * depth + 1))) }
    ensures { result ≡ climb plain_rule H.meaning (through_two depth place (depth + 1) leaf path.now) share.now }
{
    let (axis_path, data_path) = path.split_at(DIGEST_LEN * depth);
    let mut root = [0u8; DIGEST_LEN];
    let mut end = [0u8; DIGEST_LEN];
    // The lengths are known to fit, so nothing is refused.
    let _ = climb_leaf::<H>(share, place, axis_path, &mut root);
    let _ = climb_leaf::<H>(&root, leaf, data_path, &mut end);
    end
}

// Whether an evidence verifies at a cell.
pub fn verified<H: Hash>(h: &Header, cell: Cell, axis: Axis, share: &[u8], path: &[u8]) -> bool
    ensures { result ≡ verifies H.meaning (fields_of h.now) cell.row cell.col axis share.now path.now }
{
    let n = h.lengths();
    if !h.has_cell(cell) || !n.is_evidence(share.len(), path.len()) {
        return false;
    }
    let place = cell.place(axis) as usize;
    let leaf = h.line_number(axis, cell.line(axis));
    let end = climb_two::<H>(share, n.depth, place, leaf, path);
    end == h.data_root
}

// Checks an evidence for a cell; the proving axis is 0 for the cell's row and 1 for its column. It is a byte, since records and the C
// interface bring one, and a byte over 1 is refused with a number of its own.
pub fn check_share<H: Hash>(
    h: &Header,
    cell: Cell,
    axis: u8,
    share: &[u8],
    path: &[u8],
) -> Result<(), SquareRefusal>
    ensures { outcome told result ≡ check_outcome H.meaning H.KIND (fields_of h.now) cell.row cell.col axis share.now path.now }
{
    // One comparison, which each call under a hash makes first: no plainer as a function.
    if h.hash_kind != H::KIND {
        return Err(SquareRefusal::OtherHash);
    }
    if !h.has_cell(cell) {
        return Err(SquareRefusal::OutsideSquare);
    }
    let proving = Axis::try_from(axis)?;
    if !h.lengths().is_evidence(share.len(), path.len()) {
        return Err(SquareRefusal::WrongLength);
    }
    if !verified::<H>(h, cell, proving, share, path) {
        return Err(SquareRefusal::DoesNotVerify);
    }
    Ok(())
}
