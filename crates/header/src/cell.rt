// Cells of the square, and the two directions in which they lie on lines.
ghost use Rattle.header.specs.Lines.{axis_byte, axis_by, col_at, line_of, place_on, row_at};
ghost use Rattle.std.specs.Prelude.{◌≡◌, ◌≤◌};
ghost use Rattle.std.specs.Result.{OkIff};

use thiserror::Error;

// A direction. A line is a row or a column.
#[derive(Clone, Copy, PartialEq, Eq, Debug)]
pub enum Axis {
    Row,
    Column,
}

// A byte over 1, which names no axis.
#[derive(Clone, Copy, PartialEq, Eq, Debug, Error)]
#[error("an axis is 0 or 1")]
pub struct NoAxis;

impl TryFrom<u8> for Axis {
    type Error = NoAxis;

    ghost try_from_gives = { λ byte made. OkIff made (byte ≤ 1) (axis_by byte) };

    fn try_from(byte: u8) -> Result<Axis, NoAxis> {
        match byte {
            0 => Ok(Axis::Row),
            1 => Ok(Axis::Column),
            _ => Err(NoAxis),
        }
    }
}

impl From<Axis> for u8 {
    ghost from_gives = { λ axis byte. byte ≡ axis_byte axis };

    fn from(axis: Axis) -> u8 {
        match axis {
            Axis::Row => 0,
            Axis::Column => 1,
        }
    }
}

// A cell by its row and its column; it need not be inside any square.
#[derive(Clone, Copy, PartialEq, Eq, Debug)]
pub struct Cell {
    pub row: u16,
    pub col: u16,
}

impl Cell {
    // The cell at a place of the line that an axis and an index name.
    pub fn on_line(axis: Axis, index: u16, place: u16) -> Cell
        ensures row { result.row ≡ row_at axis index place }
        ensures col { result.col ≡ col_at axis index place }
    {
        match axis {
            Axis::Row => Cell {
                row: index,
                col: place,
            },
            Axis::Column => Cell {
                row: place,
                col: index,
            },
        }
    }

    // The index of the cell's line along an axis.
    pub fn line(self, axis: Axis) -> u16
        ensures { result ≡ line_of axis self.row self.col }
    {
        match axis {
            Axis::Row => self.row,
            Axis::Column => self.col,
        }
    }

    // The cell's place on that line.
    pub fn place(self, axis: Axis) -> u16
        ensures { result ≡ place_on axis self.row self.col }
    {
        match axis {
            Axis::Row => self.col,
            Axis::Column => self.row,
        }
    }
}
