// Values and lengths of a record in a block.
ghost use Rattle.header.specs.Fields.{fields_of};
ghost use Rattle.wire.specs.Parts.{value_of};
ghost use Rattle.wire.specs.Reading.{in_range};
ghost use Rattle.wire.specs.Writing.{parts_fit};
ghost use Rattle.std.specs.Prelude.{◌≡◌};

use crate::record::Record;
use erasure::limits::{ok_size, ok_width};
use hash::limits::DIGEST_LEN;
use header::cell::Axis;
use header::header::Header;

// Whether an axis is at most 1, an index and a place are below the width, and k and s of a header record are allowed.
#[tactic(auto, using(std::proofs::lemmas::Bool::Decides::nat_tests, erasure::proofs::Bounds::width_most), unfolding(crate::specs::Reading::in_range))]
pub(crate) fn in_range(h: &Header, item: &Record) -> bool
    ensures { result ≡ in_range (fields_of h.now) (value_of item.now) }
{
    let width = 2 * h.k;
    match *item {
        Record::Header { k, s, .. } => ok_width(k as usize) && ok_size(s as usize),
        Record::Roots(_) => true,
        Record::Group { axis, index } => Axis::try_from(axis).is_ok() && index < width,
        Record::Share { place, .. } => place < width,
        Record::GroupEnd => true,
        Record::Claim { axis, index, .. } => Axis::try_from(axis).is_ok() && index < width,
        Record::Witness { place, axis, .. } => place < width && Axis::try_from(axis).is_ok(),
    }
}

// Whether shares, paths and roots have the block's lengths.
#[tactic(auto, using(std::proofs::lemmas::Bool::Decides::nat_tests), unfolding(crate::specs::Writing::parts_fit))]
pub(crate) fn parts_fit(h: &Header, item: &Record) -> bool
    ensures { result ≡ parts_fit (fields_of h.now) (value_of item.now) }
{
    let n = h.lengths();
    match *item {
        Record::Header { data_root, .. } => data_root.len() == DIGEST_LEN,
        Record::Roots(roots) => roots.len() == n.roots,
        Record::Group { .. } => true,
        Record::Share { share, path, .. } => share.len() == n.share && path.len() == n.path,
        Record::GroupEnd => true,
        Record::Claim { root, path, .. } => root.len() == DIGEST_LEN && path.len() == n.data_path,
        Record::Witness { share, path, .. } => share.len() == n.share && path.len() == n.path,
    }
}
