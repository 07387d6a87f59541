// Headers and roots of extended blocks, and the evidence of their cells.
use crate::block::{Block, Shape, block_of};
use crate::kinds::{CodeKind, HashKind};
use crate::text::{bytes, word};
use anyhow::anyhow;
use evidence::check::check_share;
use evidence::write::evidence_of;
use hash::digest::Hash;
use hash::limits::DIGEST_LEN;
use header::cell::{Axis, Cell};
use sha3::digest::Sha3;
use sha256::digest::Sha256;
use std::alloc::Global;
use std::str::SplitWhitespace;

// Larger blocks are not asked for the evidence of each cell.
const MOST_PROVED: u16 = 4;

// What a line has of a block's shape; its kinds need not be known.
#[derive(Clone, Copy, Drop)]
struct Named {
    hash: u8,
    code: u8,
    k: u16,
    s: u16,
}

impl Named {
    // The shape, where both kinds are known.
    fn shape(self) -> anyhow::Result<Shape> {
        let hash = HashKind::try_from(usize::from(self.hash));
        let code = CodeKind::try_from(usize::from(self.code));
        match (hash, code) {
            (Ok(hash), Ok(code)) => Ok(Shape {
                hash,
                code,
                k: self.k,
                s: self.s,
            }),
            _ => Err(anyhow!("a hash or a code is unknown")),
        }
    }
}

// `HASH CODE K S`
fn read_shape(words: &mut SplitWhitespace<'_>) -> anyhow::Result<Named> {
    let hash = word(words)?.parse::<u8>()?;
    let code = word(words)?.parse::<u8>()?;
    let k = word(words)?.parse::<u16>()?;
    let s = word(words)?.parse::<u16>()?;
    Ok(Named { hash, code, k, s })
}

// Whether the header has what the block was made of.
fn is_headed(block: &Block, shape: Shape) -> bool {
    let h = &block.header;
    h.k == shape.k
        && h.s == shape.s
        && h.hash_kind == u8::from(shape.hash)
        && h.code_kind == u8::from(shape.code)
}

// Checks the evidence of a cell by its row and by its column.
fn prove_cell<H: Hash>(block: &Block, cell: Cell, path: &mut [u8]) -> anyhow::Result<()> {
    let h = &block.header;
    for axis in [Axis::Row, Axis::Column] {
        evidence_of::<H>(
            h,
            block.square.as_slice(),
            block.roots.as_slice(),
            cell,
            axis,
            path,
        )?;
        check_share::<H>(h, cell, axis.into(), block.share(cell), path)?;
    }
    Ok(())
}

fn prove_cells<H: Hash>(heap: Global, block: &Block) -> anyhow::Result<()> {
    let mut path = vec![in heap; 0u8; block.header.lengths().path]?;
    let width = block.header.k.wrapping_mul(2);
    for row in 0..width {
        for col in 0..width {
            prove_cell::<H>(block, Cell { row, col }, path.as_mut_slice())?;
        }
    }
    Ok(())
}

// Checks the evidence of each cell, if the block is small.
fn prove(heap: Global, block: &Block) -> anyhow::Result<()> {
    if block.header.k > MOST_PROVED {
        return Ok(());
    }
    match HashKind::try_from(usize::from(block.header.hash_kind))? {
        HashKind::Sha256 => prove_cells::<Sha256>(heap, block),
        HashKind::Sha3 => prove_cells::<Sha3>(heap, block),
    }
}

// `block HASH CODE K S DATAROOT ROOTSDIGEST`
fn block_agrees(heap: Global, words: &mut SplitWhitespace<'_>) -> anyhow::Result<bool> {
    let named = read_shape(words)?;
    let data_root = bytes(heap, words)?;
    let roots_digest = bytes(heap, words)?;
    let shape = named.shape()?;
    let block = block_of(heap, shape)?;
    prove(heap, &block)?;
    let mut digest = [0u8; DIGEST_LEN];
    Sha256::hash_message(block.roots.as_slice(), &mut digest)?;
    Ok(
        is_headed(&block, shape)
            && data_root.as_slice() == block.header.data_root.as_slice()
            && roots_digest.as_slice() == digest.as_slice(),
    )
}

// `roots HASH CODE K S ROOTS`
fn roots_agree(heap: Global, words: &mut SplitWhitespace<'_>) -> anyhow::Result<bool> {
    let named = read_shape(words)?;
    let roots = bytes(heap, words)?;
    let block = block_of(heap, named.shape()?)?;
    Ok(roots.as_slice() == block.roots.as_slice())
}

// Whether the library answers as a line of `blocks.txt` says.
pub fn agrees(heap: Global, line: &str) -> anyhow::Result<bool> {
    let mut words = line.split_whitespace();
    match word(&mut words)? {
        "block" => block_agrees(heap, &mut words),
        "roots" => roots_agree(heap, &mut words),
        _ => Err(anyhow!("a line has an unknown word")),
    }
}
