// Lengths and cells of the block that a header names.
ghost use Rattle.std.specs.Prelude.{◌≡◌, ◌<◌, ◌≤◌, IfSome};
ghost use Rattle.header.specs.Fields.{fields_of};
ghost use Rattle.header.specs.Sizes.{cell_count, depth, has_cell, lengths_of, line_number, number_of, width};

use crate::cell::{Axis, Cell};
use crate::header::Header;
use crate::lengths::Lengths;
use hash::limits::DIGEST_LEN;

impl Header {
    // Levels of a line's tree above its leaves.
    fn depth(&self) -> usize
        ensures value { result ≡ depth (fields_of self.now) }
        ensures small { result ≤ 6 }
    {
        // k is a power of two, and the width is twice it.
        self.k.ilog2() as usize + 1
    }

    // Every length that belongs to the block.
    pub fn lengths(&self) -> Lengths
        ensures { result ≡ lengths_of (fields_of self.now) }
    {
        let k = self.k as usize;
        let share = self.s as usize;
        let depth = self.depth();
        let width = 2 * k;
        let path = DIGEST_LEN * (2 * depth + 1);
        let data_path = DIGEST_LEN * (depth + 1);
        let axis_tree = DIGEST_LEN * (2 * width - 1);
        let data_tree = DIGEST_LEN * (4 * width - 1);
        let square = width * width * share;
        let claim_body = 3 + DIGEST_LEN + data_path;
        let witness_body = 3 + share + path;
        Lengths {
            width,
            depth,
            cells: width * width,
            lines: 2 * width,
            share,
            data: k * k * share,
            square,
            line: width * share,
            roots: 2 * width * DIGEST_LEN,
            axis_path: DIGEST_LEN * depth,
            data_path,
            path,
            axis_tree,
            data_tree,
            image: square + width * axis_tree + data_tree,
            header_body: 6 + DIGEST_LEN,
            group_body: 3,
            share_body: 2 + share + path,
            claim_body,
            witness_body,
            proof: 6 + claim_body + k * (6 + witness_body),
            string: 513,
        }
    }

    // Whether the cell is inside the square.
    pub fn has_cell(&self, cell: Cell) -> bool
        ensures { result ≡ has_cell (fields_of self.now) cell.row cell.col }
    {
        let width = 2 * self.k as usize;
        (cell.row as usize) < width && (cell.col as usize) < width
    }

    // The number of a cell, row by row; none where it is outside the square.
    pub fn cell_number(&self, cell: Cell) -> Option<usize>
        ensures value { result ≡ number_of (fields_of self.now) cell.row cell.col }
        ensures inside { IfSome result (λ n. n < cell_count (fields_of self.now)) }
        ensures few { IfSome result (λ n. n < 4096) }
    {
        if !self.has_cell(cell) {
            return None;
        }
        Some(cell.row as usize * (2 * self.k as usize) + cell.col as usize)
    }

    // The number of the line with this index along an axis, which is its leaf in the data tree.
    pub fn line_number(&self, axis: Axis, index: u16) -> usize
        ensures { result ≡ line_number (fields_of self.now) axis index }
    {
        match axis {
            Axis::Row => index as usize,
            Axis::Column => 2 * self.k as usize + index as usize,
        }
    }
}
