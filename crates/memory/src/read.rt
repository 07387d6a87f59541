// Reading evidence off an image.
ghost use Rattle.std.specs.Prelude.{◌≡◌, ◌+◌, ◌*◌, ◌^◌, ◌<◌, ◌≤◌, length, take, drop};
ghost use Rattle.evidence.specs.Paths.{cell_share};
ghost use Rattle.hash.specs.Digests.{digest_len};
ghost use Rattle.header.specs.Fields.{fields_of};
ghost use Rattle.header.specs.Sizes.{axis_tree_len, data_tree_len, depth, image_len, path_len, square_len, width};
ghost use Rattle.memory.specs.Images.{data_tree_in, row_path, row_tree_in};
ghost use Rattle.merkle.specs.Layout.{path_of, tree_len};

use header::cell::Cell;
use header::header::Header;
use layout::cut::tree_path;

// Writes the share of a cell.
pub(crate) fn put_share(h: &Header, image: &[u8], cell: Cell, out: &mut [u8])
    requires cell { (cell.row < width (fields_of h.now)) × (cell.col < width (fields_of h.now)) }
    requires room { (length image.now ≡ image_len (fields_of h.now)) × (length out.old ≡ (fields_of h.now).s) }
    ensures { out.new ≡ cell_share (fields_of h.now) image.now cell.row cell.col }
{
    let n = h.lengths();
    // Never met: the cell is inside.
    let Some(number) = h.cell_number(cell) else {
        return;
    };
    let at = number * n.share;
    out.copy_from_slice(&image[at..at + n.share]);
}

// Writes the path of a place in a tree of this depth.
fn put_tree_path(tree: &[u8], depth: usize, place: usize, out: &mut [u8])
    requires tree { (depth ≤ 7) × ((length tree.now ≡ tree_len depth) × (place < 2 ^ depth)) }
    requires room { length out.old ≡ digest_len * depth }
    ensures { out.new ≡ path_of depth place tree.now }
{
    let _ = tree_path(tree, depth, place, out);
}

// Writes the path of a cell by its row: in the row's tree, and then in the data tree.
pub(crate) fn put_path(h: &Header, image: &[u8], cell: Cell, path: &mut [u8])
    requires cell { (cell.row < width (fields_of h.now)) × (cell.col < width (fields_of h.now)) }
    requires room { (length image.now ≡ image_len (fields_of h.now)) × (length path.old ≡ path_len (fields_of h.now)) }
    ensures { path.new ≡ row_path (fields_of h.now) image.now cell.row cell.col }
{
    let n = h.lengths();
    let row = cell.row as usize;
    let start = n.square + row * n.axis_tree;
    let last = n.square + n.width * n.axis_tree;
    let (axis_path, data_path) = path.split_at_mut(n.axis_path);
    put_tree_path(
        &image[start..start + n.axis_tree],
        n.depth,
        cell.col as usize,
        axis_path,
    );
    put_tree_path(
        &image[last..last + n.data_tree],
        n.depth + 1,
        row,
        data_path,
    );
}
