// From cells to the records of a file.
ghost use Rattle.blockfile.specs.Index.{entry_of, marked, no_places};
ghost use Rattle.std.specs.Prelude.{◌≡◌, ◌<◌};

use header::cell::Axis;
use header::lengths::MOST_CELLS;

// The most cells of a square.
pub const CELLS: usize = MOST_CELLS;

// A share record: the place of the file where it begins, and the axis of its group.
#[derive(Clone, Copy)]
pub struct Place {
    pub at: u32,
    pub axis: Axis,
}

// For each cell the place of its share record, 0 where it has none, and the axis of that record's group. The two arrays take 20,480
// bytes; one of `Option<Place>` would take 49,152, and an index lies in the frame of the call that opens a file.
#[derive(Clone, Copy)]
pub struct Index {
    at: [u32; MOST_CELLS],
    axis: [Axis; MOST_CELLS],
}

const _: () = prove!(size_of::<Index>() == 20480);

const _: () = prove!(size_of::<[Option<Place>; MOST_CELLS]>() == 49152);

impl Index {
    // No share is noted.
    pub(crate) fn empty() -> Index
        ensures { result ≡ no_places }
    {
        Index {
            at: [0; MOST_CELLS],
            axis: [Axis::Row; MOST_CELLS],
        }
    }

    // The share record of a cell.
    pub(crate) fn place(&self, cell: usize) -> Option<Place>
        requires { cell < 4096 }
        ensures { result ≡ entry_of self.now cell }
    {
        if self.at[cell] == 0 {
            return None;
        }
        Some(Place {
            at: self.at[cell],
            axis: self.axis[cell],
        })
    }

    // Notes the share record of a cell.
    pub(crate) fn note(&mut self, cell: usize, place: Place)
        requires { cell < 4096 }
        ensures { self.new ≡ marked self.old cell place.at place.axis }
    {
        self.at[cell] = place.at;
        self.axis[cell] = place.axis;
    }
}
