// The two climbs from the claimed line's root.
ghost use Rattle.std.specs.Prelude.{◌≡◌, ◌+◌, ◌<◌, length};
ghost use Rattle.collisions.specs.Finding.{Finds};
ghost use Rattle.extraction.specs.Extracted.{data_path};
ghost use Rattle.fraud.specs.Accepted.{claim_rungs};
ghost use Rattle.fraud.specs.Charge.{block_of, case_in};
ghost use Rattle.header.specs.Lines.{axis_by};
ghost use Rattle.header.specs.Sizes.{data_path_len, data_tree_len, depth, line_count, line_number};
ghost use Rattle.merkle.specs.Climb.{from_leaf, slot};

use crate::comparison::Comparison;
use crate::lengths::STRING_LEN;
use collisions::branch::{Branch, Pair};
use collisions::find::find_collision;
use commitment::rooms::DATA_TREE_ROOM;
use commitment::values::value_tree;
use hash::digest::Hash;
use hash::limits::DIGEST_LEN;
use layout::cut::tree_path;

// The longest path in the data tree. The library allocates nothing, so a shorter one takes the front of as much.
const PATH_ROOM: usize = 224;

impl Comparison<'_> {
    // Writes the path of a line in the data tree over the square's roots; `tree` is where the tree is laid out.
    fn put_data_path<H: Hash>(&self, line: usize, tree: &mut [u8], path: &mut [u8])
        requires line { line < line_count (block_of self.now.charge) }
        requires room { (length tree.old ≡ data_tree_len (block_of self.now.charge)) × (length path.old ≡ data_path_len (block_of self.now.charge)) }
        ensures { path.new ≡ data_path H.meaning (block_of self.now.charge) self.now.roots.now line }
    {
        let depth = self.charge.header.lengths().depth + 1;
        let _ = value_tree::<H>(self.roots, DIGEST_LEN, depth, tree);
        let _ = tree_path(tree, depth, line, path);
    }

    // Compares the climb of the claimed root with that of the square's own root of the same line, whose path is written to `own`.
    fn compare_roots<H: Hash>(
        &self,
        tree: &mut [u8],
        own: &mut [u8],
        string_a: &mut [u8; STRING_LEN],
        string_b: &mut [u8; STRING_LEN],
    ) -> Option<usize>
        requires room { (length tree.old ≡ data_tree_len (block_of self.now.charge)) × (length own.old ≡ data_path_len (block_of self.now.charge)) }
        ensures { let line = line_number (block_of self.now.charge) (axis_by self.now.charge.proof.axis) self.now.charge.proof.index in Finds H.meaning (claim_rungs (block_of self.now.charge) (case_in self.now.charge).claim) (from_leaf (depth (block_of self.now.charge) + 1) line (data_path H.meaning (block_of self.now.charge) self.now.roots.now line)) self.now.charge.proof.root.now (slot line self.now.roots.now) result string_a.old string_b.old string_a.new string_b.new }
    {
        let line = self.charge.line_number();
        self.put_data_path::<H>(line, tree, own);
        let at = DIGEST_LEN * line;
        let mut end_a = [0u8; DIGEST_LEN];
        let mut end_b = [0u8; DIGEST_LEN];
        // The lengths fit, so that it is never refused.
        find_collision::<H>(
            Branch {
                value: self.charge.proof.root,
                path: self.charge.proof.path,
            },
            Branch {
                value: &self.roots[at..at + DIGEST_LEN],
                path: own,
            },
            line,
            Pair {
                a: &mut end_a,
                b: &mut end_b,
            },
            Pair {
                a: string_a,
                b: string_b,
            },
        )
        .unwrap_or(None)
    }

    // The same with room of its own.
    pub(crate) fn collide_at_claim<H: Hash>(
        &self,
        string_a: &mut [u8; STRING_LEN],
        string_b: &mut [u8; STRING_LEN],
    ) -> Option<usize>
        ensures { let line = line_number (block_of self.now.charge) (axis_by self.now.charge.proof.axis) self.now.charge.proof.index in Finds H.meaning (claim_rungs (block_of self.now.charge) (case_in self.now.charge).claim) (from_leaf (depth (block_of self.now.charge) + 1) line (data_path H.meaning (block_of self.now.charge) self.now.roots.now line)) self.now.charge.proof.root.now (slot line self.now.roots.now) result string_a.old string_b.old string_a.new string_b.new }
    {
        let n = self.charge.header.lengths();
        let mut tree = [0u8; DATA_TREE_ROOM];
        let mut own = [0u8; PATH_ROOM];
        self.compare_roots::<H>(
            &mut tree[0..n.data_tree],
            &mut own[0..n.data_path],
            string_a,
            string_b,
        )
    }
}
