// Proofs of bad encoding, good and bad, in blocks of two by two shares of one byte.
use crate::block::Block;
use hash::digest::Hash;
use header::cell::{Axis, Cell};
use std::alloc::Global;
use std::test::*;
use wire::record::Record;

// What a claim says, and the lines whose root and whose path it brings.
#[derive(Clone, Copy, Drop)]
pub struct Claimed {
    pub axis: Axis,
    pub index: u16,
    // A line by its number, rows first.
    pub root_of: usize,
    pub path_of: (Axis, u16),
}

// What a witness says, and the cell whose share and path it brings.
#[derive(Clone, Copy, Drop)]
pub struct Witnessed {
    pub place: u16,
    pub axis: Axis,
    pub cell: Cell,
}

// Row 1, as it should be claimed.
pub const ROW_1: Claimed = Claimed {
    axis: Axis::Row,
    index: 1,
    root_of: 1,
    path_of: (Axis::Row, 1),
};

// Witnesses on row 1 at places 0 and 1, by row and by column.
pub const AT_0: Witnessed = Witnessed {
    place: 0,
    axis: Axis::Row,
    cell: Cell { row: 1, col: 0 },
};

pub const AT_1: Witnessed = Witnessed {
    place: 1,
    axis: Axis::Column,
    cell: Cell { row: 1, col: 1 },
};

// Appends the claim record.
fn append_claim<H: Hash>(
    heap: Global,
    b: &Block,
    claim: Claimed,
    proof: &mut Vec<u8>,
) -> Result<(), Fail> {
    let (axis, index) = claim.path_of;
    let path = b.path::<H>(axis, Cell::on_line(axis, index, 0))?;
    let item = Record::Claim {
        axis: claim.axis.into(),
        index: claim.index,
        root: b.root(claim.root_of)?,
        path: &path[64..160],
    };
    b.append(heap, &item, proof)
}

// Appends a witness record.
fn append_witness<H: Hash>(
    heap: Global,
    b: &Block,
    witness: Witnessed,
    proof: &mut Vec<u8>,
) -> Result<(), Fail> {
    let path = b.path::<H>(witness.axis, witness.cell)?;
    let item = Record::Witness {
        place: witness.place,
        axis: witness.axis.into(),
        share: b.share(witness.cell)?,
        path: &path,
    };
    b.append(heap, &item, proof)
}

// The bytes of a claim and of witnesses.
pub fn proof_of<H: Hash>(
    heap: Global,
    b: &Block,
    claim: Claimed,
    witnesses: &[Witnessed],
) -> Result<Vec<u8>, Fail> {
    let mut proof = Vec::new(heap);
    append_claim::<H>(heap, b, claim, &mut proof)?;
    for w in witnesses {
        append_witness::<H>(heap, b, *w, &mut proof)?;
    }
    Ok(proof)
}
