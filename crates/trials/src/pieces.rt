// Pieces of block files, good and bad.
use crate::block::Block;
use header::cell::{Axis, Cell};
use sha256::digest::Sha256;
use std::alloc::Global;
use std::test::*;
use wire::record::Record;

// One part of a file.
#[derive(Clone, Copy, Drop)]
pub enum Piece {
    Header,
    Roots,
    // Axis and index.
    Group(Axis, u16),
    // The share of a cell, proved along an axis.
    Share(Axis, Cell),
    End,
    Claim,
}

fn append_share(
    heap: Global,
    block: &Block,
    axis: Axis,
    cell: Cell,
    file: &mut Vec<u8>,
) -> Result<(), Fail> {
    let path = block.path::<Sha256>(axis, cell)?;
    let item = Record::Share {
        place: cell.place(axis),
        share: block.share(cell)?,
        path: &path,
    };
    block.append(heap, &item, file)
}

fn append_piece(heap: Global, block: &Block, piece: Piece, file: &mut Vec<u8>) -> Result<(), Fail> {
    match piece {
        Piece::Header => block.append(heap, &Record::from(&block.header), file),
        Piece::Roots => block.append(heap, &Record::Roots(&block.roots), file),
        Piece::Group(axis, index) => {
            let item = Record::Group {
                axis: axis.into(),
                index,
            };
            block.append(heap, &item, file)
        }
        Piece::Share(axis, cell) => append_share(heap, block, axis, cell, file),
        Piece::End => block.append(heap, &Record::GroupEnd, file),
        Piece::Claim => {
            let item = Record::Claim {
                axis: 0,
                index: 0,
                root: &block.roots[0..32],
                path: &block.roots[0..96],
            };
            block.append(heap, &item, file)
        }
    }
}

// The file of these pieces, one after the other.
pub fn file_of(heap: Global, block: &Block, pieces: &[Piece]) -> Result<Vec<u8>, Fail> {
    let mut file = Vec::new(heap);
    for piece in pieces {
        append_piece(heap, block, *piece, &mut file)?;
    }
    Ok(file)
}
