// Blocks of data that a rule gives.
use crate::kinds::{CodeKind, HashKind};
use erasure::code::Code;
use erasure::kinds::{Cauchy, Polynomial};
use hash::digest::Hash;
use hash::limits::DIGEST_LEN;
use header::cell::Cell;
use header::header::Header;
use header::make::make_header;
use sha3::digest::Sha3;
use sha256::digest::Sha256;
use square::extend::extend;
use std::alloc::Global;

// What a block is made of: the kinds, k and the share size.
#[derive(Clone, Copy, Drop)]
pub struct Shape {
    pub hash: HashKind,
    pub code: CodeKind,
    pub k: u16,
    pub s: u16,
}

// An extended block.
#[derive(Drop)]
pub struct Block {
    pub header: Header,
    pub square: Vec<u8>,
    pub roots: Vec<u8>,
}

impl Block {
    // The share of a cell; it is empty for a cell outside the square.
    pub fn share(&self, cell: Cell) -> &[u8] {
        let s = usize::from(self.header.s);
        self.header
            .cell_number(cell)
            .map(|number| number.wrapping_mul(s))
            .and_then(|from| self.square.as_slice().get(from..from.wrapping_add(s)))
            .unwrap_or(&[])
    }
}

// The first n bytes of the data of a block.
fn data(heap: Global, shape: Shape, n: usize) -> anyhow::Result<Vec<u8>> {
    let k = usize::from(shape.k);
    let s = usize::from(shape.s);
    let first = k
        .wrapping_mul(5)
        .wrapping_add(s.wrapping_mul(3))
        .wrapping_add(1);
    let bytes = (0..n)
        .map(|i| (i.wrapping_mul(17).wrapping_add(first) % 253) as u8)
        .collect(heap)?;
    Ok(bytes)
}

fn extended<H: Hash, C: Code>(heap: Global, shape: Shape) -> anyhow::Result<Block> {
    let k = usize::from(shape.k);
    let s = usize::from(shape.s);
    let blank = make_header(
        k,
        s,
        shape.hash.into(),
        shape.code.into(),
        &[0u8; DIGEST_LEN],
    )?;
    let n = blank.lengths();
    let shares = data(heap, shape, n.data)?;
    let mut square = vec![in heap; 0u8; n.square]?;
    let mut roots = vec![in heap; 0u8; n.roots]?;
    let header = extend::<H, C>(
        k,
        s,
        shares.as_slice(),
        square.as_mut_slice(),
        roots.as_mut_slice(),
    )?;
    Ok(Block {
        header,
        square,
        roots,
    })
}

// The block of a shape, extended.
pub fn block_of(heap: Global, shape: Shape) -> anyhow::Result<Block> {
    match (shape.hash, shape.code) {
        (HashKind::Sha256, CodeKind::Polynomial) => extended::<Sha256, Polynomial>(heap, shape),
        (HashKind::Sha256, CodeKind::Cauchy) => extended::<Sha256, Cauchy>(heap, shape),
        (HashKind::Sha3, CodeKind::Polynomial) => extended::<Sha3, Polynomial>(heap, shape),
        (HashKind::Sha3, CodeKind::Cauchy) => extended::<Sha3, Cauchy>(heap, shape),
    }
}
