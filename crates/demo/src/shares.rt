// A share of the block and its evidence, checked with nothing but the header.
use evidence::check::check_share;
use evidence::write::evidence_of;
use hash::limits::DIGEST_LEN;
use header::cell::{Axis, Cell};
use header::header::Header;
use sha256::digest::Sha256;

// The cell in row 1 and column 2.
const CELL: Cell = Cell { row: 1, col: 2 };

fn show_check(rt: &HostRuntime, h: &Header, share: u8, path: &[u8]) -> anyhow::Result<()> {
    match check_share::<Sha256>(h, CELL, Axis::Row.into(), &[share], path) {
        Ok(()) => println!(rt; "with the share {share} it is accepted")?,
        Err(refusal) => println!(rt;
            "with the share {share} it is refused by {}",
            refusal.number()
        )?,
    }
    Ok(())
}

fn show_path(rt: &HostRuntime, path: &[u8]) -> anyhow::Result<()> {
    println!(rt; "")?;
    println!(rt;
        "The evidence of the share in row 1 and column 2, by its row: digests up to the data root"
    )?;
    for digest in path.chunks(DIGEST_LEN) {
        let text = hex::encode(rt.alloc(), digest)?;
        println!(rt; "  {text}")?;
    }
    Ok(())
}

pub fn show(rt: &HostRuntime, h: &Header, square: &[u8; 16], roots: &[u8]) -> anyhow::Result<()> {
    let share = square[6];
    let mut path = [0u8; 160];
    evidence_of::<Sha256>(h, square, roots, CELL, Axis::Row, &mut path)?;
    show_path(rt, &path)?;
    show_check(rt, h, share, &path)?;
    show_check(rt, h, share ^ 1, &path)
}
