// The trees of all columns at once. Row by row, the leaf digests of a square are rows of digests; the digests of two such rows, joined
// place by place, are the nodes above them in all columns. So no more than one row for each level has to be kept, and every leaf is
// hashed once: its digest is used in its row's tree and in its column's.
ghost use Rattle.std.specs.Prelude.{◌≡◌, ℕ, ◌+◌, ◌*◌, ◌^◌, ◌<◌, ◌≤◌, length};
ghost use Rattle.commitment.specs.Roots.{line_leaf};
ghost use Rattle.hash.specs.Digests.{digest_len};
ghost use Rattle.merkle.specs.Climb.{join_of, plain_rule, slot};
ghost use Rattle.merkle.specs.Tree.{node, root};

use crate::cells::Cells;
use crate::rooms::LINE_TREE_ROOM;
use crate::values::grown_root;
use hash::digest::Hash;
use hash::limits::DIGEST_LEN;
use layout::entry::{join_entries, put_entry};

// The root of the tree over a row of 2^depth digests.
fn row_root<H: Hash>(row: &[u8], depth: usize) -> [u8; DIGEST_LEN]
    requires { (depth ≤ 6) × ((length row.now ≡ digest_len * 2 ^ depth) × (2 ^ depth ≤ 64)) }
    ensures { result ≡ root (join_of plain_rule H.meaning) depth (λ p. slot p row.now) }
{
    let mut space = [0u8; LINE_TREE_ROOM];
    space[..row.len()].copy_from_slice(row);
    grown_root::<H>(&mut space[..2 * row.len() - DIGEST_LEN], depth)
}

// Joins the first row of digests with the second, place by place.
fn join_rows<H: Hash>(work: &mut [u8], width: usize)
    requires { digest_len * (width + width) ≤ length work.old }
    ensures { (j : ℕ) → j < width → slot j work.new ≡ join_of plain_rule H.meaning (slot j work.old) (slot (width + j) work.old) }
{
    // By index: each step reads two entries of the row that it writes to.
    for j in 0..width {
        // Both rows have these entries, so nothing is refused.
        let _ = join_entries::<H>(work, j, width + j, j);
    }
}

impl Cells<'_> {
    // Hashes the cells of row i to the first row of digests, and gives the root of the row's tree.
    fn hash_row<H: Hash>(&self, i: usize, row: &mut [u8]) -> [u8; DIGEST_LEN]
        requires row { i < self.now.lengths.width }
        requires room { digest_len * self.now.lengths.width ≤ length row.old }
        ensures leaves { (j : ℕ) → j < self.now.lengths.width → slot j row.new ≡ line_leaf H.meaning self.now.lengths.width self.now.lengths.share self.now.shares.now i j }
        ensures root { result ≡ root (join_of plain_rule H.meaning) self.now.lengths.depth (line_leaf H.meaning self.now.lengths.width self.now.lengths.share self.now.shares.now i) }
    {
        self.put_line::<H>(i, row);
        row_root::<H>(&row[..DIGEST_LEN * self.lengths.width], self.lengths.depth)
    }

    // Writes node i of level `level` of every column's tree to the first row of `work`, and the roots of the rows below it; the rows
    // before those are done. The rows of digests behind the first are where the levels below are worked out. That the roots are as long as
    // their block's is said here and of `put_roots` alone: a struct with that fact would only be taken apart by both.
    pub(crate) fn fold<H: Hash>(&self, level: usize, i: usize, work: &mut [u8], roots: &mut [u8])
        requires rows { (i + 1) * 2 ^ level ≤ self.now.lengths.width }
        requires room { (digest_len * (self.now.lengths.width * level + self.now.lengths.width) ≤ length work.old) × (length roots.old ≡ digest_len * (2 * self.now.lengths.width)) }
        requires done { (n : ℕ) → n < i * 2 ^ level → slot n roots.old ≡ root (join_of plain_rule H.meaning) self.now.lengths.depth (line_leaf H.meaning self.now.lengths.width self.now.lengths.share self.now.shares.now n) }
        ensures columns { (j : ℕ) → j < self.now.lengths.width → slot j work.new ≡ node (join_of plain_rule H.meaning) (line_leaf H.meaning self.now.lengths.width self.now.lengths.share self.now.shares.now (self.now.lengths.width + j)) level i }
        ensures rows { (n : ℕ) → n < (i + 1) * 2 ^ level → slot n roots.new ≡ root (join_of plain_rule H.meaning) self.now.lengths.depth (line_leaf H.meaning self.now.lengths.width self.now.lengths.share self.now.shares.now n) }
    {
        if level == 0 {
            let root = self.hash_row::<H>(i, work);
            // The roots have an entry for each line, so nothing is refused.
            let _ = put_entry(roots, i, &root);
        } else {
            let below = level - 1;
            let row = DIGEST_LEN * self.lengths.width;
            self.fold::<H>(below, 2 * i, work, roots);
            self.fold::<H>(below, 2 * i + 1, &mut work[row..], roots);
            join_rows::<H>(work, self.lengths.width);
        }
    }
}
