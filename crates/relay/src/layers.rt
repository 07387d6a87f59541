// A relay's view of the block: a checking cache over a layer that withholds a row, over the file.
use blockfile::file::BlockFile;
use blockfile::open::open_file;
use cache::cache::Cache;
use filestore::filestore::FileStore;
use header::cell::Cell;
use header::header::Header;
use sha256::digest::Sha256;
use store::store::Store;
use withholding::withholding::Withholding;

// The marks that withhold row 2.
const ROW_2: [u8; 16] = [0, 0, 0, 0, 0, 0, 0, 0, 1, 1, 1, 1, 0, 0, 0, 0];

// The cells that are asked for, one after the other.
const ASKED: [Cell; 4] = [
    Cell { row: 1, col: 2 },
    Cell { row: 2, col: 0 },
    Cell { row: 1, col: 2 },
    Cell { row: 3, col: 3 },
];

fn ask<S: Store>(rt: &HostRuntime, store: &mut S, cell: Cell) -> anyhow::Result<()> {
    let mut share = [0u8; 1];
    let mut path = [0u8; 160];
    let shown = store.show(cell, &mut share, &mut path)?;
    let text = hex::encode(rt.alloc(), share.as_slice())?;
    match shown {
        Some(_) => println!(rt; "  row {}, column {}: {text}", cell.row, cell.col)?,
        None => println!(rt; "  row {}, column {}: nothing", cell.row, cell.col)?,
    }
    Ok(())
}

fn show_pile(rt: &HostRuntime, h: &Header, file: &BlockFile) -> anyhow::Result<()> {
    let mut hidden = Withholding::new(FileStore::new(&*file));
    hidden.withhold(&ROW_2)?;
    let mut pile: Cache<Sha256, Withholding<FileStore>> = Cache::new(*h, hidden);
    for cell in ASKED {
        ask(rt, &mut pile, cell)?;
    }
    println!(rt; "  questions that went below the cache: {}", pile.count())?;
    Ok(())
}

pub fn show(rt: &HostRuntime, h: &Header, bytes: &[u8]) -> anyhow::Result<()> {
    let mut file = BlockFile::empty();
    open_file(&mut file, bytes)?;
    println!(rt; "")?;
    println!(rt; "A checking cache over the file, of which row 2 is withheld")?;
    show_pile(rt, h, &file)
}
