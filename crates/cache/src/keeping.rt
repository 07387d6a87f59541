// Finding, writing and keeping answers.
ghost use Rattle.std.specs.Prelude.{◌≡◌, ℕ, ◌+◌, ◌-◌, ◌^◌, ◌≤◌, min, length, take, Some};
ghost use Rattle.cache.specs.Keeping.{evidence_of, kept_for, place_in, places, pushed};

use crate::kept::{Kept, PLACES};
use header::cell::Cell;

// The kept answer of a cell.
pub(crate) fn find(slots: &[Option<Kept>], cell: Cell) -> Option<Kept>
    ensures { (k s : ℕ) → evidence_of (place_in k s result) ≡ kept_for cell.row cell.col (places k s slots.now) }
{
    slots
        .iter()
        .flatten()
        .find(|kept| kept.cell == cell)
        .copied()
}

// Keeps an answer as the one that came last; what stood in the first place goes.
pub(crate) fn keep(slots: &mut [Option<Kept>; PLACES], v: Kept)
    ensures { slots.new ≡ pushed slots.old (Some v) }
{
    slots.rotate_left(1);
    slots[PLACES - 1] = Some(v);
}

impl Kept {
    // Writes the share and the path into the caller's two buffers, of the block's lengths, which are those of the trait of stores.
    pub(crate) fn write(&self, share: &mut [u8], path: &mut [u8])
        requires { (length share.old ≤ 512) × (length path.old ≤ 416) }
        ensures share { share.new ≡ take (length share.old) self.now.share }
        ensures path { path.new ≡ take (length path.old) self.now.path }
    {
        let n = share.len();
        let m = path.len();
        share.copy_from_slice(&self.share[..n]);
        path.copy_from_slice(&self.path[..m]);
    }
}

// Counts one more, up to the largest count.
pub(crate) fn one_more(count: &mut u64)
    ensures { count.new ≡ min (count.old + 1) (2 ^ 64 - 1) }
{
    *count = count.saturating_add(1);
}
