// Every cell of a square, put to any store.
ghost use Rattle.std.specs.Prelude.{◌≡◌, ℕ, ◌+◌, ◌*◌, ◌/◌, ◌%◌, ◌<◌, ◌≤◌, false, length, Ok};
ghost use Rattle.octets.specs.Splice.{over};
ghost use Rattle.header.specs.Fields.{fields_of};
ghost use Rattle.header.specs.Sizes.{cell_count, path_len, square_len, width};
ghost use Rattle.std.specs.Option.{is_some};
ghost use Rattle.std.specs.Result.{is_ok};
ghost use Rattle.store.specs.Meaning.{Meaning};
ghost use Rattle.store.specs.Showing.{asked};
ghost use Rattle.store.specs.Sweeping.{Holds, Swept, held_marks, held_square, sweep_fits};

use crate::store::Store;
use crate::taking::take_evidence;
use hash::digest::Hash;
use header::cell::{Axis, Cell};
use header::header::Header;
use header::lengths::PATH_ROOM;
use octets::misfit::Misfit;

// Takes the evidence at a cell into the caller's buffers, since there is no heap. Where there is none, the share is zeros.
fn hold<H: Hash, S: Store>(
    h: &Header,
    store: &mut S,
    cell: Cell,
    share: &mut [u8],
    path: &mut [u8],
) -> Option<Axis>
    ensures { S.Store.ordered store.old → asked (S.Store.meaning store.old).k (S.Store.meaning store.old).s cell.row cell.col (length share.old) (length path.old) ≡ Ok tt → Holds H.Hash.meaning (fields_of h.now) (S.Store.meaning store.old) (S.Store.meaning store.new) (S.Store.ordered store.new) cell.row cell.col (is_some result) share.new }
{
    let taken = take_evidence::<H, S>(h, store, cell, share, path);
    if taken.is_none() {
        share.fill(0);
    }
    taken
}

// Writes the share of every cell into the square, and its mark.
fn sweep_cells<H: Hash, S: Store>(
    h: &Header,
    store: &mut S,
    path: &mut [u8],
    square: &mut [u8],
    marks: &mut [u8],
)
    requires room { (length path.old ≡ path_len (fields_of h.now)) × ((length square.old ≡ square_len (fields_of h.now)) × (length marks.old ≡ cell_count (fields_of h.now))) }
    requires store { ((S.Store.meaning store.old).k ≡ (fields_of h.now).k) × ((S.Store.meaning store.old).s ≡ (fields_of h.now).s) }
    ensures { S.Store.ordered store.old → (square.new ≡ held_square H.Hash.meaning (fields_of h.now) (S.Store.meaning store.old)) × (marks.new ≡ held_marks H.Hash.meaning (fields_of h.now) (S.Store.meaning store.old)) × (S.Store.meaning store.new ≡ S.Store.meaning store.old) × S.Store.ordered store.new }
{
    let n = h.lengths();
    // By number: no contract says what a slice holds after a loop over chunks that are written, or over a zip of them.
    for i in 0..n.cells {
        let cell = Cell {
            row: (i / n.width) as u16,
            col: (i % n.width) as u16,
        };
        let at = i * n.share;
        let held = hold::<H, S>(h, store, cell, &mut square[at..at + n.share], path);
        marks[i] = u8::from(held.is_some());
    }
}

// Whether the store has the header's k and share size, and square and marks the block's lengths.
fn sweep_fits<S: Store>(h: &Header, store: &S, square: usize, marks: usize) -> bool
    ensures { result ≡ sweep_fits (fields_of h.now) (S.Store.meaning store.now) square marks }
{
    let n = h.lengths();
    store.half_width() == h.k as usize
        && (store.share_size() == n.share && (square == n.square && marks == n.cells))
}

// Puts every cell to a store once, row by row. Where its evidence verifies under the header, the square gets the share and the cell
// the mark 1; elsewhere the square is zeros and the mark 0. Where the sizes do not fit, it asks nothing and writes nothing.
pub fn sweep<H: Hash, S: Store>(
    h: &Header,
    store: &mut S,
    square: &mut [u8],
    marks: &mut [u8],
) -> Result<(), Misfit>
    ensures answer { is_ok result ≡ sweep_fits (fields_of h.now) (S.Store.meaning store.old) (length square.old) (length marks.old) }
    ensures swept { S.Store.ordered store.old → Swept H.Hash.meaning (fields_of h.now) (S.Store.meaning store.old) (S.Store.meaning store.new) (S.Store.ordered store.new) square.old marks.old square.new marks.new }
    ensures untouched { is_ok result ≡ false → (store.new ≡ store.old) × (square.new ≡ square.old) × (marks.new ≡ marks.old) }
{
    if !sweep_fits(h, store, square.len(), marks.len()) {
        return Err(Misfit);
    }
    let n = h.lengths();
    let mut room = [0u8; PATH_ROOM];
    let path = &mut room[..n.path];
    sweep_cells::<H, S>(h, store, path, square, marks);
    Ok(())
}
