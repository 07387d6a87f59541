// What every store looks at first when it is asked for a cell.
ghost use Rattle.octets.specs.Outcome.{outcome, outcome_by};
ghost use Rattle.header.specs.Fields.{fields_of, header_outcome, shape};
ghost use Rattle.store.specs.Refusals.{told};
ghost use Rattle.store.specs.Showing.{question_outcome};
ghost use Rattle.std.specs.Prelude.{◌≡◌};

use crate::refusal::StoreRefusal;
use header::cell::Cell;
use header::header::Header;
use header::refusal::SquareRefusal;

// A header of this k and this share size, for lengths and cells alone.
pub fn shape_of(k: usize, s: usize) -> Result<Header, StoreRefusal>
    ensures { outcome_by fields_of told result ≡ header_outcome (shape k s) }
{
    // Nothing but k and the share size can be refused here.
    Header::of_shape(k, s).map_err(|e| match e {
        SquareRefusal::WrongWidth => StoreRefusal::WrongWidth,
        _ => StoreRefusal::WrongShareSize,
    })
}

// Whether a store of this k and this share size may be asked for a cell, with buffers of so many bytes for the share and the path.
pub fn question(
    k: usize,
    s: usize,
    cell: Cell,
    share: usize,
    path: usize,
) -> Result<(), StoreRefusal>
    ensures { outcome told result ≡ question_outcome k s cell.row cell.col share path }
{
    let h = shape_of(k, s)?;
    if !h.has_cell(cell) {
        return Err(StoreRefusal::OutsideSquare);
    }
    if !h.lengths().is_evidence(share, path) {
        return Err(StoreRefusal::WrongLength);
    }
    Ok(())
}

impl StoreRefusal {
    // The number by which the call refuses.
    pub fn number(self) -> u8
        ensures { result ≡ (told self).number }
    {
        match self {
            StoreRefusal::WrongWidth => 1,
            StoreRefusal::WrongShareSize => 2,
            StoreRefusal::WrongLength => 3,
            StoreRefusal::OutOfRange => 11,
            StoreRefusal::OutsideSquare => 15,
        }
    }
}
