// Blocks of two by two shares of one byte, and their records.
use commitment::commit::commit;
use erasure::kinds::Polynomial;
use evidence::write::evidence_of;
use hash::digest::Hash;
use header::cell::{Axis, Cell};
use header::header::Header;
use std::alloc::Global;
use std::test::*;
use wire::record::Record;
use wire::write::write_record;

// The extension of rows 1 2 and 3 4.
pub const SQUARE: [u8; 16] = [1, 2, 7, 4, 3, 4, 13, 10, 5, 14, 19, 24, 7, 8, 25, 22];

// A square, extended or not, with its roots and its header.
#[derive(Clone, Copy, Drop)]
pub struct Block {
    pub header: Header,
    pub square: [u8; 16],
    pub roots: [u8; 256],
}

impl Block {
    pub fn committed<H: Hash>(square: [u8; 16]) -> Result<Block, Fail> {
        let mut roots = [0u8; 256];
        let header = commit::<H, Polynomial>(2, 1, &square, &mut roots)?;
        Ok(Block {
            header,
            square,
            roots,
        })
    }

    // The path of a cell along an axis: two digests in its line's tree and three in the data tree.
    pub fn path<H: Hash>(&self, axis: Axis, cell: Cell) -> Result<[u8; 160], Fail> {
        let mut path = [0u8; 160];
        evidence_of::<H>(
            &self.header,
            &self.square,
            &self.roots,
            cell,
            axis,
            &mut path,
        )?;
        Ok(path)
    }

    // The share of a cell.
    pub fn share(&self, cell: Cell) -> Result<&[u8], Fail> {
        let shown = self
            .header
            .cell_number(cell)
            .and_then(|number| self.square.get(number..number.wrapping_add(1)));
        match shown {
            Some(share) => Ok(share),
            None => Err(Fail::new("no such cell")),
        }
    }

    // The root of the line with this number, rows first.
    pub fn root(&self, line: usize) -> Result<&[u8], Fail> {
        match self.roots.chunks(32).nth(line) {
            Some(root) => Ok(root),
            None => Err(Fail::new("no such line")),
        }
    }

    // Appends a record.
    pub fn append(&self, heap: Global, item: &Record, bytes: &mut Vec<u8>) -> Result<(), Fail> {
        let mut record = vec![in heap; 0u8; item.kind().record_len(&self.header)]?;
        write_record(&self.header, item, record.as_mut_slice())?;
        bytes.extend_from_slice(record.as_slice())?;
        Ok(())
    }
}
