// Laying out an image.
ghost use Rattle.std.specs.Prelude.{◌≡◌, ◌*◌, length};
ghost use Rattle.octets.specs.Outcome.{outcome};
ghost use Rattle.octets.specs.Written.{written};
ghost use Rattle.header.specs.Fields.{fields_of};
ghost use Rattle.header.specs.Refusals.{told};
ghost use Rattle.image.specs.Image.{data_tree, image_of, image_outcome, row_trees};

use commitment::cells::Cells;
use commitment::values::value_tree;
use hash::digest::Hash;
use hash::limits::DIGEST_LEN;
use header::header::Header;
use header::lengths::ROOTS_ROOM;
use header::refusal::SquareRefusal;

// Writes the trees of all rows, one after the other. The lengths fit here and below, so nothing is refused.
fn put_row_trees<H: Hash>(cells: &Cells, trees: &mut [u8])
    requires { length trees.old ≡ cells.now.lengths.width * cells.now.lengths.axis_tree }
    ensures { trees.new ≡ row_trees H.meaning (fields_of cells.now.header.now) cells.now.shares.now cells.now.lengths.width }
{
    let size = cells.lengths.axis_tree;
    // By index: of a loop over a buffer's mutable chunks no proof sees what the buffer holds.
    for row in 0..cells.lengths.width {
        let _ = cells.line_tree::<H>(row, &mut trees[row * size..(row + 1) * size]);
    }
}

// Writes the tree over the roots of all lines.
fn put_data_tree<H: Hash>(cells: &Cells, tree: &mut [u8])
    requires { length tree.old ≡ cells.now.lengths.data_tree }
    ensures { tree.new ≡ data_tree H.meaning (fields_of cells.now.header.now) cells.now.shares.now }
{
    let mut space = [0u8; ROOTS_ROOM];
    let roots = &mut space[..cells.lengths.roots];
    let _ = cells.roots::<H>(roots);
    let _ = value_tree::<H>(roots, DIGEST_LEN, cells.lengths.depth + 1, tree);
}

fn fill_image<H: Hash>(cells: &Cells, image: &mut [u8])
    requires { length image.old ≡ cells.now.lengths.image }
    ensures { image.new ≡ image_of H.meaning (fields_of cells.now.header.now) cells.now.shares.now }
{
    let n = &cells.lengths;
    let (square, trees) = image.split_at_mut(n.square);
    let (row_trees, data_tree) = trees.split_at_mut(n.width * n.axis_tree);
    square.copy_from_slice(cells.shares);
    put_row_trees::<H>(cells, row_trees);
    put_data_tree::<H>(cells, data_tree);
}

// Lays out the image of a square, extended or not: the square row by row, the tree of each row, the data tree. Of the header it uses
// k, the share size and the hash kind alone.
pub fn lay_out_image<H: Hash>(
    h: &Header,
    square: &[u8],
    image: &mut [u8],
) -> Result<(), SquareRefusal>
    ensures answer { outcome told result ≡ image_outcome H.KIND (fields_of h.now) (length square.now) (length image.old) }
    ensures laid { image.new ≡ written (image_outcome H.KIND (fields_of h.now) (length square.now) (length image.old)) (image_of H.meaning (fields_of h.now) square.now) image.old }
{
    // One comparison, which each call under a hash makes first: no plainer as a function.
    if h.hash_kind != H::KIND {
        return Err(SquareRefusal::OtherHash);
    }
    let cells = Cells::of(h, square)?;
    if image.len() != cells.lengths.image {
        return Err(SquareRefusal::WrongLength);
    }
    fill_image::<H>(&cells, image);
    Ok(())
}
