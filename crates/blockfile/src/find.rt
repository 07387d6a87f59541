// What an opened file has.
ghost use Rattle.std.specs.Prelude.{◌≡◌, ◌+◌, ◌≤◌, length, Some};
ghost use Rattle.blockfile.specs.File.{evidence_of};
ghost use Rattle.blockfile.specs.Found.{some_evidence};
ghost use Rattle.blockfile.specs.Index.{evidence_in};
ghost use Rattle.header.specs.Fields.{fields_of};
ghost use Rattle.header.specs.Sizes.{head_len, share_body_len};
ghost use Rattle.wire.specs.Parts.{after};

use crate::file::BlockFile;
use crate::found::Found;
use crate::index::Place;
use header::cell::Cell;
use header::header::Header;
use wire::write::HEAD_LEN;

impl Place {
    // The evidence in the share record there: behind the head and the place number a share, and then a path.
    fn cut<'a>(self, h: &Header, bytes: &'a [u8]) -> Found<'a>
        requires { self.at + (head_len + share_body_len (fields_of h.now)) ≤ length bytes.now }
        ensures value { some_evidence (Some result) ≡ Some (evidence_in (fields_of h.now) bytes.now self.at self.axis) }
        ensures place { (result.share.ref_ptr ≡ after bytes.entry.ref_ptr (self.at + 8)) × (result.path.ref_ptr ≡ after bytes.entry.ref_ptr (self.at + (8 + (fields_of h.now).s))) }
    {
        let n = h.lengths();
        let share = self.at as usize + HEAD_LEN + 2;
        let path = share + n.share;
        Found {
            axis: self.axis,
            share: &bytes[share..path],
            path: &bytes[path..path + n.path],
        }
    }
}

impl<'a> BlockFile<'a> {
    pub fn header(&self) -> Header
        ensures { result ≡ self.now.header }
    {
        self.header
    }

    // The roots of the rows and then of the columns, as the file has them.
    pub fn roots(&self) -> &'a [u8]
        ensures { result ≡ self.now.roots }
    {
        self.roots
    }

    // The evidence that the file has for a cell; its share and its path are parts of the file.
    pub fn evidence(&self, cell: Cell) -> Option<Found<'a>>
        ensures { some_evidence result ≡ evidence_of self.now cell.row cell.col }
    {
        let number = self.header.cell_number(cell)?;
        let place = self.index.place(number)?;
        Some(place.cut(&self.header, self.bytes))
    }
}
