// The layer, its set of cells, and what it shows.
ghost use Rattle.std.specs.Prelude.{◌≡◌, ℕ, ◌+◌, ◌*◌, ◌<◌, ◌≤◌, ◌&&◌, true, false, length, replicate, ◌==◌, slice_index, slice_index_or};
ghost use Rattle.octets.specs.Outcome.{outcome};
ghost use Rattle.octets.specs.Written.{written};
ghost use Rattle.header.specs.Sizes.{has_cell};
ghost use Rattle.store.specs.Meaning.{block};
ghost use Rattle.store.specs.Refusals.{told};
ghost use Rattle.store.specs.Showing.{Shows, Untouched, asked};
ghost use Rattle.withholding.specs.Masked.{all_marks, hides, hiding, masked, withhold_outcome};

use header::cell::{Axis, Cell};
use header::lengths::MOST_CELLS;
use store::question::shape_of;
use store::refusal::StoreRefusal;
use store::store::Store;

// A store below, and for each number of a cell whether the cell is hidden. There is no heap, so there is room for the largest square.
#[derive(Drop)]
pub struct Withholding<S> {
    below: S,
    hidden: [bool; MOST_CELLS],
}

// Whether each mark is 0 or 1.
fn all_marks(marks: &[u8]) -> bool
    ensures { result ≡ all_marks marks.now }
{
    marks.iter().all(|mark| *mark <= 1)
}

// Hides the cells whose mark is 1 and shows the others, of as many cells as there are marks.
fn hide_marked(hidden: &mut [bool], marks: &[u8])
    requires { length marks.now ≡ length hidden.old }
    ensures { (i : ℕ) → slice_index_or hidden.new i false ≡ (slice_index marks.now i == 1) }
{
    // Not by a zip: after a loop over an adapter of `iter_mut` nothing is known of what the buffer holds.
    let mut marks = marks.iter();
    for is_hidden in hidden.iter_mut() {
        *is_hidden = marks.next() == Some(&1);
    }
}

// Hides the cells whose mark is 1 and shows all others. There may be room for a larger square than that of the marks: so all is cleared
// at once, and only the marked front is gone through.
fn hide(hidden: &mut [bool], marks: &[u8])
    requires { length marks.now ≤ length hidden.old }
    ensures { (i : ℕ) → slice_index_or hidden.new i false ≡ (slice_index marks.now i == 1) }
{
    hidden.fill(false);
    let (square, _) = hidden.split_at_mut(marks.len());
    hide_marked(square, marks);
}

impl<S: Store> Withholding<S> {
    // A layer over a store that hides no cell.
    pub fn new(below: S) -> Self
        ensures below { result.below ≡ below }
        ensures nothing { masked (S.Store.meaning result.below) result.hidden ≡ S.Store.meaning below }
        ensures order { S.Store.ordered below → S.Store.ordered result.below }
    {
        Withholding {
            below,
            hidden: [false; MOST_CELLS],
        }
    }

    // Hides exactly the cells whose mark is 1. Marks are bytes, as in the calls that hand them over.
    pub fn withhold(&mut self, marks: &[u8]) -> Result<(), StoreRefusal>
        ensures answer { outcome told result ≡ withhold_outcome (S.Store.meaning self.old.below) marks.now }
        ensures below { self.new.below ≡ self.old.below }
        ensures hidden { masked (S.Store.meaning self.new.below) self.new.hidden ≡ written (withhold_outcome (S.Store.meaning self.old.below) marks.now) (hiding (S.Store.meaning self.old.below) marks.now) (masked (S.Store.meaning self.old.below) self.old.hidden) }
        ensures refused { Untouched (withhold_outcome (S.Store.meaning self.old.below) marks.now) self.old self.new }
    {
        let w = 2 * self.below.half_width();
        if marks.len() != w * w {
            return Err(StoreRefusal::WrongLength);
        }
        if !all_marks(marks) {
            return Err(StoreRefusal::OutOfRange);
        }
        hide(&mut self.hidden, marks);
        Ok(())
    }

    // Whether a cell is inside the square and hidden.
    fn hides(&self, cell: Cell) -> bool
        ensures { result ≡ (has_cell (block (S.Store.meaning self.now.below).k (S.Store.meaning self.now.below).s) cell.row cell.col && hides (S.Store.meaning self.now.below) self.now.hidden cell.row cell.col) }
    {
        // The k and the share size of a store are always allowed.
        let Ok(shape) = shape_of(self.below.half_width(), self.below.share_size()) else {
            return false;
        };
        match shape.cell_number(cell) {
            Some(number) => self.hidden[number],
            None => false,
        }
    }
}

impl<S: Store> Store for Withholding<S> {
    ghost meaning = { λ w. masked (S.Store.meaning w.below) w.hidden };

    ghost ordered = { λ w. S.Store.ordered w.below };

    ghost bounded = { λ w. S.Store.bounded w.below };

    fn half_width(&self) -> usize {
        self.below.half_width()
    }

    fn share_size(&self) -> usize {
        self.below.share_size()
    }

    // A hidden cell is not asked for below.
    fn show(
        &mut self,
        cell: Cell,
        share: &mut [u8],
        path: &mut [u8],
    ) -> Result<Option<Axis>, StoreRefusal>
        ensures shown { S.Store.ordered self.old.below → Shows (masked (S.Store.meaning self.old.below) self.old.hidden) (masked (S.Store.meaning self.new.below) self.new.hidden) (S.Store.ordered self.new.below) cell.row cell.col share.old path.old (outcome told result) share.new path.new }
        ensures refused { Untouched (asked (S.Store.meaning self.old.below).k (S.Store.meaning self.old.below).s cell.row cell.col (length share.old) (length path.old)) self.old self.new }
        ensures unasked { hides (S.Store.meaning self.old.below) self.old.hidden cell.row cell.col ≡ true → self.new ≡ self.old }
    {
        self.admit(cell, share, path)?;
        if self.hides(cell) {
            return Ok(None);
        }
        self.below.show(cell, share, path)
    }
}
