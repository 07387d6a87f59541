// The codeword through shares that witnesses show, worked out cell by cell from their records.
ghost use Rattle.std.specs.Prelude.{◌≡◌, ℕ, ◌*◌, ◌<◌, ◌≤◌, true, length};
ghost use Rattle.octets.specs.Shares.{share};
ghost use Rattle.erasure.specs.Rows.{row_sum};
ghost use Rattle.hash.specs.Digests.{digest_len};
ghost use Rattle.merkle.specs.Climb.{join_of, leaf_of, plain_rule, slot};
ghost use Rattle.merkle.specs.Tree.{root};
ghost use Rattle.codes.specs.Words.{Through};
ghost use Rattle.commitment.specs.Values.{value_root};
ghost use Rattle.fraud.specs.Accepted.{shares_of};
ghost use Rattle.fraud.specs.Check.{witnesses_in, word_by};
ghost use Rattle.header.specs.Fields.{fields_of};
ghost use Rattle.header.specs.Sizes.{axis_tree_len, depth, width};
ghost use Rattle.erasure.specs.Places.{rising_below};
ghost use Rattle.fraudproof.specs.Proof.{witness_len};
ghost use Rattle.std.specs.Str.{bytes_eq};

use crate::shown::Shown;
use crate::sums::Sums;
use climbs::node::leaf_digest;
use commitment::rooms::LINE_TREE_ROOM;
use erasure::code::Code;
use erasure::rows::apply_row;
use hash::digest::Hash;
use hash::limits::DIGEST_LEN;
use header::header::Header;
use header::lengths::SHARE_ROOM;
use layout::cut::tree_root;
use layout::entry::put_entry;
use layout::grow::grow;
use wire::write::HEAD_LEN;

// Where the share begins in the record of a witness.
const SHARE_AT: usize = 9;

// The weights of the most shares. The library allocates nothing, so fewer take the front of as much.
const TABLE_ROOM: usize = 2048;

impl Sums<'_> {
    // The node of the leaf whose cell has the weights `row`; the cell is worked out in `sum`.
    fn node<H: Hash>(&self, row: &[u8], sum: &mut [u8]) -> [u8; DIGEST_LEN]
        requires { let h = fields_of self.now.shown.header.now in (length row.now ≡ h.k) × (length sum.old ≡ h.s) }
        ensures { let h = fields_of self.now.shown.header.now in result ≡ leaf_of plain_rule H.meaning (row_sum row.now (witness_len h) 9 h.s self.now.shown.records.now) }
    {
        let mut node = [0u8; DIGEST_LEN];
        let _ = apply_row(
            row,
            self.shown.records,
            self.shown.record_len(),
            SHARE_AT,
            sum,
        );
        let _ = leaf_digest::<H>(sum, &mut node);
        node
    }

    // Writes the nodes of all 2k leaves.
    fn put_nodes<H: Hash>(&self, sum: &mut [u8], entries: &mut [u8])
        requires { let h = fields_of self.now.shown.header.now in (length sum.old ≡ h.s) × (digest_len * (2 * h.k) ≤ length entries.old) }
        ensures { let h = fields_of self.now.shown.header.now in (j : ℕ) → j < 2 * h.k → slot j entries.new ≡ leaf_of plain_rule H.meaning (row_sum (share h.k j self.now.rows.now) (witness_len h) 9 h.s self.now.shown.records.now) }
    {
        let k = self.shown.header.k as usize;
        for (i, row) in self.rows.chunks_exact(k).enumerate() {
            let _ = put_entry(entries, i, &self.node::<H>(row, sum));
        }
    }

    // The root of the codeword; cells and nodes are worked out in `sum` and `tree`.
    fn root<H: Hash>(&self, sum: &mut [u8], tree: &mut [u8]) -> [u8; DIGEST_LEN]
        requires { let h = fields_of self.now.shown.header.now in (length sum.old ≡ h.s) × (length tree.old ≡ axis_tree_len h) }
        ensures { let h = fields_of self.now.shown.header.now in result ≡ root (join_of plain_rule H.meaning) (depth h) (λ j. leaf_of plain_rule H.meaning (row_sum (share h.k j self.now.rows.now) (witness_len h) 9 h.s self.now.shown.records.now)) }
    {
        let depth = self.shown.header.lengths().depth;
        let mut top = [0u8; DIGEST_LEN];
        self.put_nodes::<H>(sum, tree);
        let _ = grow::<H>(tree, depth);
        let _ = tree_root(tree, depth, &mut top);
        top
    }
}

impl<'a> Shown<'a> {
    pub(crate) fn of(header: &'a Header, places: &'a [u16], records: &'a [u8]) -> Shown<'a>
        requires places { (length places.now ≡ (fields_of header.now).k) × (rising_below (width (fields_of header.now)) places.now ≡ true) }
        requires records { length records.now ≡ (fields_of header.now).k * witness_len (fields_of header.now) }
        ensures header { result.header ≡ header.entry }
        ensures places { result.places ≡ places.entry }
        ensures records { result.records ≡ records.entry }
    {
        Shown {
            header,
            places,
            records,
        }
    }

    // The length of a record.
    fn record_len(&self) -> usize
        ensures { result ≡ witness_len (fields_of self.now.header.now) }
    {
        HEAD_LEN + self.header.lengths().witness_body
    }

    // The root of the codeword through the shares. Weights, cells and nodes are worked out in `rows`, `sum` and `tree`.
    fn root_in<H: Hash, C: Code>(
        &self,
        rows: &mut [u8],
        sum: &mut [u8],
        tree: &mut [u8],
    ) -> [u8; DIGEST_LEN]
        requires { (length rows.old ≡ 2 * (fields_of self.now.header.now).k * (fields_of self.now.header.now).k) × ((length sum.old ≡ (fields_of self.now.header.now).s) × (length tree.old ≡ axis_tree_len (fields_of self.now.header.now))) }
        ensures value { result ≡ value_root H.Hash.meaning (depth (fields_of self.now.header.now)) (fields_of self.now.header.now).s (word_by C.Code.weight (fields_of self.now.header.now).k (fields_of self.now.header.now).s self.now.places.now (shares_of (witnesses_in (fields_of self.now.header.now) self.now.records.now))) }
        ensures through { Through C.Code.table (fields_of self.now.header.now).k (fields_of self.now.header.now).s self.now.places.now (shares_of (witnesses_in (fields_of self.now.header.now) self.now.records.now)) (word_by C.Code.weight (fields_of self.now.header.now).k (fields_of self.now.header.now).s self.now.places.now (shares_of (witnesses_in (fields_of self.now.header.now) self.now.records.now))) }
    {
        C::weights(self.places, rows);
        let sums = Sums { shown: *self, rows };
        sums.root::<H>(sum, tree)
    }

    // Whether the codeword through the shares has this root.
    pub(crate) fn has_root<H: Hash, C: Code>(&self, root: &[u8]) -> bool
        ensures answer { result ≡ bytes_eq (value_root H.Hash.meaning (depth (fields_of self.now.header.now)) (fields_of self.now.header.now).s (word_by C.Code.weight (fields_of self.now.header.now).k (fields_of self.now.header.now).s self.now.places.now (shares_of (witnesses_in (fields_of self.now.header.now) self.now.records.now)))) root.now }
        ensures through { Through C.Code.table (fields_of self.now.header.now).k (fields_of self.now.header.now).s self.now.places.now (shares_of (witnesses_in (fields_of self.now.header.now) self.now.records.now)) (word_by C.Code.weight (fields_of self.now.header.now).k (fields_of self.now.header.now).s self.now.places.now (shares_of (witnesses_in (fields_of self.now.header.now) self.now.records.now))) }
    {
        let n = self.header.lengths();
        let weights = n.width * self.header.k as usize;
        let mut table = [0u8; TABLE_ROOM];
        let mut cell = [0u8; SHARE_ROOM];
        let mut space = [0u8; LINE_TREE_ROOM];
        let rows = &mut table[0..weights];
        let sum = &mut cell[0..n.share];
        let tree = &mut space[0..n.axis_tree];
        let top = self.root_in::<H, C>(rows, sum, tree);
        &top[..] == root
    }
}
