// The line that a proof claims, and the cells of its witnesses.
ghost use Rattle.header.specs.Lines.{axis_by, col_at, row_at};
ghost use Rattle.std.specs.Prelude.{◌≡◌};

use crate::proof::Proof;
use crate::witness::Witness;
use header::cell::{Axis, Cell};

// Reading refuses an axis over 1; in a proof or a witness made otherwise it stands for a column.
pub(crate) fn axis_by(byte: u8) -> Axis
    ensures { result ≡ axis_by byte }
{
    Axis::try_from(byte).unwrap_or(Axis::Column)
}

impl Proof<'_> {
    // The axis of the claimed line.
    pub fn axis(&self) -> Axis
        ensures { result ≡ axis_by self.now.axis }
    {
        axis_by(self.axis)
    }

    // The cell of a witness: that at its own place of the claimed line.
    pub fn cell_of(&self, w: &Witness) -> Cell
        ensures row { result.row ≡ row_at (axis_by self.now.axis) self.now.index w.now.place }
        ensures col { result.col ≡ col_at (axis_by self.now.axis) self.now.index w.now.place }
    {
        Cell::on_line(self.axis(), self.index, w.place)
    }
}
