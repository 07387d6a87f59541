// A producer who commits to a wrong share, the proof that condemns its block, and a forged proof against the good block.
use crate::block::Block;
use crate::file::show_digest;
use commitment::commit::commit;
use erasure::kinds::Polynomial;
use fraud::check::check_proof;
use header::cell::{Axis, Cell};
use header::header::Header;
use sha256::digest::Sha256;
use wire::record::Record;
use wire::write::write_record;

// The record that claims the root of row 1.
fn claim(b: &Block) -> anyhow::Result<[u8; 137]> {
    let path = b.path(Cell { row: 1, col: 0 })?;
    let item = Record::Claim {
        axis: Axis::Row.into(),
        index: 1,
        root: &b.roots[32..64],
        path: &path[64..160],
    };
    let mut record = [0u8; 137];
    write_record(&b.header, &item, &mut record)?;
    Ok(record)
}

// The record of the witness at a place of row 1.
fn witness(b: &Block, place: u16) -> anyhow::Result<[u8; 170]> {
    let cell = Cell { row: 1, col: place };
    let path = b.path(cell)?;
    let item = Record::Witness {
        place,
        axis: Axis::Row.into(),
        share: b.share(cell)?,
        path: &path,
    };
    let mut record = [0u8; 170];
    write_record(&b.header, &item, &mut record)?;
    Ok(record)
}

// The proof that row 1 is badly coded, by its first two shares.
fn proof_of(rt: &HostRuntime, b: &Block) -> anyhow::Result<Vec<u8>> {
    let mut proof = Vec::new(rt.alloc());
    proof.extend_from_slice(&claim(b)?)?;
    proof.extend_from_slice(&witness(b, 0)?)?;
    proof.extend_from_slice(&witness(b, 1)?)?;
    Ok(proof)
}

fn show_check(rt: &HostRuntime, name: &str, h: &Header, proof: &[u8]) -> anyhow::Result<()> {
    match check_proof::<Sha256, Polynomial>(h, proof) {
        Ok(()) => println!(rt; "  against {name}: accepted")?,
        Err(e) => println!(rt; "  against {name}: refused by {}, {e}", e.number())?,
    }
    Ok(())
}

pub fn show(rt: &HostRuntime, good: &Block) -> anyhow::Result<()> {
    let mut bad = *good;
    bad.square[6] = 0;
    bad.header = commit::<Sha256, Polynomial>(2, 1, &bad.square, &mut bad.roots)?;
    let proof = proof_of(rt, &bad)?;
    println!(rt; "")?;
    println!(rt;
        "A second producer commits to the same block with 0 in the place of 13, in row 1 and column 2"
    )?;
    println!(rt;
        "A proof of bad encoding: row 1, with the shares 3 and 4, whose codeword is 3 4 13 10"
    )?;
    println!(rt; "  bytes       {}", proof.len())?;
    show_digest(rt, proof.as_slice())?;
    show_check(rt, "the second block", &bad.header, proof.as_slice())?;
    show_check(rt, "the first block", &good.header, proof.as_slice())
}
