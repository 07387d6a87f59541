// The block as a file: written record by record, opened, and looked at.
use crate::block::Block;
use blockfile::file::BlockFile;
use blockfile::open::open_file;
use hash::digest::Hash;
use header::cell::{Axis, Cell};
use sha256::digest::Sha256;
use std::alloc::Global;
use wire::record::Record;
use wire::write::write_record;

// A block file of which some records are written.
#[derive(Drop)]
struct Writer<'a> {
    heap: Global,
    block: &'a Block,
    bytes: Vec<u8>,
}

impl<'a> Writer<'a> {
    fn append(&mut self, item: &Record) -> anyhow::Result<()> {
        let h = &self.block.header;
        let mut record = vec![in self.heap; 0u8; item.kind().record_len(h)]?;
        write_record(h, item, record.as_mut_slice())?;
        self.bytes.extend_from_slice(record.as_slice())?;
        Ok(())
    }

    // The header and the roots.
    fn append_front(&mut self) -> anyhow::Result<()> {
        let block = self.block;
        self.append(&Record::from(&block.header))?;
        self.append(&Record::Roots(&block.roots))
    }

    // One share with its path, in the group of its row.
    fn append_share(&mut self, cell: Cell) -> anyhow::Result<()> {
        let block = self.block;
        let path = block.path(cell)?;
        let item = Record::Share {
            place: cell.col,
            share: block.share(cell)?,
            path: &path,
        };
        self.append(&item)
    }

    // The group of a row with all its shares.
    fn append_row(&mut self, row: u16) -> anyhow::Result<()> {
        let begin = Record::Group {
            axis: Axis::Row.into(),
            index: row,
        };
        self.append(&begin)?;
        for col in 0..4u16 {
            self.append_share(Cell { row, col })?;
        }
        self.append(&Record::GroupEnd)
    }
}

// A block file with a group for each row and all its shares.
pub fn written(rt: &HostRuntime, block: &Block) -> anyhow::Result<Vec<u8>> {
    let mut writer = Writer {
        heap: rt.alloc(),
        block,
        bytes: Vec::new(rt.alloc()),
    };
    writer.append_front()?;
    for row in 0..4u16 {
        writer.append_row(row)?;
    }
    Ok(writer.bytes)
}

// How many cells of the square the file has a share of.
fn shares(file: &BlockFile) -> usize {
    (0..16u16)
        .map(|number| Cell {
            row: number / 4,
            col: number % 4,
        })
        .filter(|cell| file.evidence(*cell).is_some())
        .count()
}

pub fn show_digest(rt: &HostRuntime, bytes: &[u8]) -> anyhow::Result<()> {
    let mut digest = [0u8; 32];
    let _ = Sha256::hash_message(bytes, &mut digest);
    let text = hex::encode(rt.alloc(), digest.as_slice())?;
    println!(rt; "  SHA-256     {text}")?;
    Ok(())
}

fn show_file(rt: &HostRuntime, file: &BlockFile) -> anyhow::Result<()> {
    let h = file.header();
    println!(rt; "opened, it is a block of k {} and share size {}", h.k, h.s)?;
    println!(rt; "  shares      {}", shares(file))?;
    if let Some(found) = file.evidence(Cell { row: 1, col: 2 }) {
        let share = hex::encode(rt.alloc(), found.share)?;
        println!(rt;
            "  row 1, column 2 has the share {share}, and a path of {} bytes",
            found.path.len()
        )?;
    }
    Ok(())
}

// The file without its last record, which ends the last group.
fn show_refusals(rt: &HostRuntime, bytes: &[u8]) -> anyhow::Result<()> {
    let mut file = BlockFile::empty();
    let front = &bytes[..bytes.len().saturating_sub(6)];
    if let Err(e) = open_file(&mut file, front) {
        println!(rt;
            "without the end of its last group it is refused by {}: {e}",
            e.number()
        )?;
    }
    Ok(())
}

fn show_opened(rt: &HostRuntime, bytes: &[u8]) -> anyhow::Result<()> {
    let mut file = BlockFile::empty();
    open_file(&mut file, bytes)?;
    show_file(rt, &file)
}

pub fn show(rt: &HostRuntime, bytes: &[u8]) -> anyhow::Result<()> {
    println!(rt; "")?;
    println!(rt; "The block as a file: header, roots, and a group of shares for each row")?;
    println!(rt; "  bytes       {}", bytes.len())?;
    show_digest(rt, bytes)?;
    show_opened(rt, bytes)?;
    show_refusals(rt, bytes)
}
