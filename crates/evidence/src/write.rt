// Writing the evidence that a square gives.
ghost use Rattle.std.specs.Prelude.{◌≡◌, ◌+◌, ◌<◌, length, Ok};
ghost use Rattle.octets.specs.Outcome.{outcome};
ghost use Rattle.octets.specs.Written.{written};
ghost use Rattle.commitment.specs.Roots.{line_tree};
ghost use Rattle.commitment.specs.Values.{value_tree};
ghost use Rattle.evidence.specs.Paths.{Proves, evidence_outcome, evidence_path};
ghost use Rattle.hash.specs.Digests.{digest_len};
ghost use Rattle.header.specs.Fields.{fields_of};
ghost use Rattle.header.specs.Refusals.{told};
ghost use Rattle.header.specs.Sizes.{depth, line_count, width};
ghost use Rattle.merkle.specs.Layout.{path_of};

use crate::block::Block;
use commitment::rooms::{DATA_TREE_ROOM, LINE_TREE_ROOM};
use commitment::values::value_tree;
use hash::digest::Hash;
use hash::limits::DIGEST_LEN;
use header::cell::{Axis, Cell};
use header::header::Header;
use header::refusal::SquareRefusal;
use layout::cut::tree_path;

impl Block<'_> {
    // Writes the path of a place in the tree of a line. The lengths fit here and below, so nothing is refused.
    fn put_axis_path<H: Hash>(&self, line: usize, place: usize, out: &mut [u8])
        requires place { (line < line_count (fields_of self.now.cells.header.now)) × (place < width (fields_of self.now.cells.header.now)) }
        requires room { length out.old ≡ self.now.cells.lengths.axis_path }
        ensures { out.new ≡ path_of (depth (fields_of self.now.cells.header.now)) place (line_tree H.meaning (fields_of self.now.cells.header.now) self.now.cells.shares.now line) }
    {
        let n = &self.cells.lengths;
        let mut space = [0u8; LINE_TREE_ROOM];
        let tree = &mut space[..n.axis_tree];
        let _ = self.cells.line_tree::<H>(line, tree);
        let _ = tree_path(tree, n.depth, place, out);
    }

    // Writes the path of a line's root in the data tree. The two trees are over different parts of a block, and only the cut is alike: one
    // function would take the laying out as a closure, and be no shorter.
    fn put_data_path<H: Hash>(&self, line: usize, out: &mut [u8])
        requires line { line < line_count (fields_of self.now.cells.header.now) }
        requires room { length out.old ≡ self.now.cells.lengths.data_path }
        ensures { out.new ≡ path_of (depth (fields_of self.now.cells.header.now) + 1) line (value_tree H.meaning (depth (fields_of self.now.cells.header.now) + 1) digest_len self.now.roots.now) }
    {
        let n = &self.cells.lengths;
        let mut space = [0u8; DATA_TREE_ROOM];
        let tree = &mut space[..n.data_tree];
        let _ = value_tree::<H>(self.roots, DIGEST_LEN, n.depth + 1, tree);
        let _ = tree_path(tree, n.depth + 1, line, out);
    }

    // Writes both paths, one after the other.
    fn put_path<H: Hash>(&self, cell: Cell, axis: Axis, path: &mut [u8])
        requires cell { (cell.row < width (fields_of self.now.cells.header.now)) × (cell.col < width (fields_of self.now.cells.header.now)) }
        requires room { length path.old ≡ self.now.cells.lengths.path }
        ensures { path.new ≡ evidence_path H.meaning (fields_of self.now.cells.header.now) self.now.cells.shares.now self.now.roots.now axis cell.row cell.col }
    {
        let line = self.cells.header.line_number(axis, cell.line(axis));
        let place = cell.place(axis) as usize;
        let (axis_path, data_path) = path.split_at_mut(self.cells.lengths.axis_path);
        self.put_axis_path::<H>(line, place, axis_path);
        self.put_data_path::<H>(line, data_path);
    }
}

// Writes the path by which a square with these roots proves a cell along an axis.
pub fn evidence_of<H: Hash>(
    h: &Header,
    square: &[u8],
    roots: &[u8],
    cell: Cell,
    axis: Axis,
    path: &mut [u8],
) -> Result<(), SquareRefusal>
    ensures answer { outcome told result ≡ evidence_outcome H.KIND (fields_of h.now) cell.row cell.col (length square.now) (length roots.now) (length path.old) }
    ensures written { path.new ≡ written (evidence_outcome H.KIND (fields_of h.now) cell.row cell.col (length square.now) (length roots.now) (length path.old)) (evidence_path H.meaning (fields_of h.now) square.now roots.now axis cell.row cell.col) path.old }
    ensures proves { evidence_outcome H.KIND (fields_of h.now) cell.row cell.col (length square.now) (length roots.now) (length path.old) ≡ Ok tt → Proves H.meaning (fields_of h.now) square.now roots.now axis cell.row cell.col path.new }
{
    // One comparison, which each call under a hash makes first: no plainer as a function.
    if h.hash_kind != H::KIND {
        return Err(SquareRefusal::OtherHash);
    }
    if !h.has_cell(cell) {
        return Err(SquareRefusal::OutsideSquare);
    }
    let block = Block::of(h, square, roots)?;
    if path.len() != block.cells.lengths.path {
        return Err(SquareRefusal::WrongLength);
    }
    block.put_path::<H>(cell, axis, path);
    Ok(())
}
