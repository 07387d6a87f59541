// A square of four by four shares of one byte, extended or not, with its header and its roots.
use anyhow::anyhow;
use evidence::write::evidence_of;
use header::cell::{Axis, Cell};
use header::header::Header;
use sha256::digest::Sha256;

#[derive(Clone, Copy)]
pub struct Block {
    pub header: Header,
    pub square: [u8; 16],
    pub roots: [u8; 256],
}

impl Block {
    // The share of a cell.
    pub fn share(&self, cell: Cell) -> anyhow::Result<&[u8]> {
        let shown = self
            .header
            .cell_number(cell)
            .and_then(|number| self.square.get(number..number.wrapping_add(1)));
        match shown {
            Some(share) => Ok(share),
            None => Err(anyhow!("a cell is outside the square")),
        }
    }

    // The path of a cell by its row.
    pub fn path(&self, cell: Cell) -> anyhow::Result<[u8; 160]> {
        let mut path = [0u8; 160];
        evidence_of::<Sha256>(
            &self.header,
            &self.square,
            &self.roots,
            cell,
            Axis::Row,
            &mut path,
        )?;
        Ok(path)
    }
}
