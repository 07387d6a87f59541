// The trait of stores.
ghost use Rattle.octets.specs.Outcome.{outcome};
ghost use Rattle.store.specs.Meaning.{Bounded, Meaning};
ghost use Rattle.store.specs.Refusals.{told};
ghost use Rattle.store.specs.Showing.{Shows, Untouched, asked};
ghost use Rattle.std.specs.Prelude.{◌≡◌, length};

use crate::question::question;
use crate::refusal::StoreRefusal;
use header::cell::{Axis, Cell};

pub trait Store {
    // What the store means: k, a share size and, for each cell, nothing or one evidence.
    ghost meaning: { Self → Meaning };

    // The rule of order: a condition on the store's inner state under which it answers what it means. Its calls keep it.
    ghost ordered: { Self → Type 0 };

    // Every value has an allowed k and an allowed share size, in order or not.
    ghost bounded: { (x : Self) → Bounded (meaning x) };

    // A layer passes these two on from the store below, since a store keeps no header that it could lend.
    fn half_width(&self) -> usize
        ensures { result ≡ (meaning self.now).k };

    fn share_size(&self) -> usize
        ensures { result ≡ (meaning self.now).s };

    // Whether the store may be asked for a cell, with these buffers for the share and the path.
    fn admit(&self, cell: Cell, share: &[u8], path: &[u8]) -> Result<(), StoreRefusal>
        ensures { outcome told result ≡ asked (meaning self.now).k (meaning self.now).s cell.row cell.col (length share.now) (length path.now) }
    {
        question(
            self.half_width(),
            self.share_size(),
            cell,
            share.len(),
            path.len(),
        )
    }

    // Answers what the store means at a cell: nothing, or the proving axis, and then it writes the share and the path. There is no
    // heap, so both are copied into two buffers of the caller, which are of the block's lengths and travel through every layer.
    fn show(
        &mut self,
        cell: Cell,
        share: &mut [u8],
        path: &mut [u8],
    ) -> Result<Option<Axis>, StoreRefusal>
        ensures shown { ordered self.old → Shows (meaning self.old) (meaning self.new) (ordered self.new) cell.row cell.col share.old path.old (outcome told result) share.new path.new }
        ensures refused { Untouched (asked (meaning self.old).k (meaning self.old).s cell.row cell.col (length share.old) (length path.old)) self.old self.new };
}
