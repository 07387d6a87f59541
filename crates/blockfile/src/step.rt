// What the records of a file do.
ghost use Rattle.std.specs.Prelude.{◌≡◌, ◌<◌, ◌≤◌, true, [], length, Ok};
ghost use Rattle.blockfile.specs.Index.{no_places};
ghost use Rattle.blockfile.specs.Opening.{Walks, after_it, closed};
ghost use Rattle.blockfile.specs.Refusals.{told};
ghost use Rattle.blockfile.specs.Steps.{go, held, noting};
ghost use Rattle.blockfile.specs.Walk.{file_limit, finish_by};
ghost use Rattle.blockfile.specs.declared.point.Point.TheVariants.{Between, Inside};
ghost use Rattle.octets.specs.Outcome.{outcome, outcome_by};
ghost use Rattle.header.specs.Fields.{fields_of};
ghost use Rattle.header.specs.Lines.{axis_by, col_at, row_at};
ghost use Rattle.header.specs.Sizes.{cell_number, width};
ghost use Rattle.wire.specs.Parts.{value_of};
ghost use Rattle.wire.specs.Reading.{in_range};

use crate::index::{Index, Place};
use crate::point::Point;
use crate::refusal::{FileRefusal, refused};
use crate::walk::Walk;
use header::cell::{Axis, Cell};
use header::header::Header;
use wire::reader::Reader;
use wire::record::Record;
use wire::refusal::Fault;

impl Walk {
    // Before the first group.
    pub(crate) fn new(header: Header) -> Walk
        ensures header { result.header ≡ header }
        ensures point { result.point ≡ Between }
        ensures index { result.index ≡ no_places }
    {
        Walk {
            header,
            point: Point::Between,
            index: Index::empty(),
        }
    }

    // Enters the group of a line. The reader lets no axis over 1 through, so the refusal here is never met.
    fn enter(&mut self, axis: u8, index: u16, at: usize) -> Result<(), FileRefusal>
        requires { (axis ≤ 1) × (index < width (fields_of self.old.header)) }
        ensures answer { outcome_by (after_it self.new) told result ≡ Ok (held (Inside (axis_by axis) index) self.old.index) }
        ensures same { self.new.header ≡ self.old.header }
    {
        let Ok(axis) = Axis::try_from(axis) else {
            return Err(refused(Fault::OutOfRange, at));
        };
        self.point = Point::Inside { axis, index };
        Ok(())
    }

    // Notes the share at a place of the line of a group. The line is one of the block and the reader lets no place outside it through,
    // so the refusal of a cell outside is never met.
    fn note(&mut self, axis: Axis, index: u16, place: u16, at: usize) -> Result<(), FileRefusal>
        requires { (index < width (fields_of self.old.header)) × ((place < width (fields_of self.old.header)) × (at ≤ file_limit)) }
        ensures answer { outcome_by (after_it self.new) told result ≡ noting self.old.point self.old.index (cell_number (fields_of self.old.header) (row_at axis index place) (col_at axis index place)) at axis }
        ensures same { self.new.header ≡ self.old.header }
    {
        let cell = Cell::on_line(axis, index, place);
        let Some(number) = self.header.cell_number(cell) else {
            return Err(refused(Fault::OutOfRange, at));
        };
        if self.index.place(number).is_some() {
            return Err(FileRefusal::SeenTwice { at });
        }
        self.index.note(
            number,
            Place {
                at: at as u32,
                axis,
            },
        );
        Ok(())
    }

    // What the record at a place of the file does. The reader gives only what is due at the point, so no other record is ever met.
    fn step(&mut self, item: &Record, at: usize) -> Result<(), FileRefusal>
        requires { (in_range (fields_of self.old.header) (value_of item.now) ≡ true) × (at ≤ file_limit) }
        ensures answer { outcome_by (after_it self.new) told result ≡ go (fields_of self.old.header) self.old.point self.old.index at (value_of item.now) }
        ensures same { self.new.header ≡ self.old.header }
    {
        match self.point {
            Point::Between => match *item {
                Record::Group { axis, index } => self.enter(axis, index, at),
                _ => Err(refused(Fault::NotDue, at)),
            },
            Point::Inside { axis, index } => match *item {
                Record::Share { place, .. } => self.note(axis, index, place, at),
                Record::GroupEnd => {
                    self.point = Point::Between;
                    Ok(())
                }
                _ => Err(refused(Fault::NotDue, at)),
            },
        }
    }

    // Whether the bytes may end at a place.
    fn finish(&self, at: usize) -> Result<(), FileRefusal>
        ensures { outcome told result ≡ closed (finish_by self.now.point [] at) }
    {
        match self.point {
            Point::Between => Ok(()),
            Point::Inside { .. } => Err(refused(Fault::NotDue, at)),
        }
    }

    // Notes the shares of all groups, to the first of which a reader of the file has come.
    pub(crate) fn run(&mut self, mut reader: Reader) -> Result<(), FileRefusal>
        requires file { (0 < reader.at) × (length reader.bytes.now ≤ file_limit) }
        requires fresh { (self.old.point ≡ Between) × (self.old.index ≡ no_places) }
        ensures { Walks (fields_of self.old.header) reader.entry.bytes.now reader.entry.at result self.new.index }
    {
        while !reader.is_at_end() {
            let at = reader.place();
            let item = reader.read(&self.header, self.point.due())?;
            self.step(&item, at)?;
        }
        self.finish(reader.place())
    }
}
