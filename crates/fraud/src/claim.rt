// The claim of a proof.
ghost use Rattle.fraud.specs.Accepted.{is_committed};
ghost use Rattle.fraud.specs.Charge.{block_of, case_in};
ghost use Rattle.header.specs.Lines.{axis_by};
ghost use Rattle.header.specs.Sizes.{line_count, line_number};
ghost use Rattle.std.specs.Prelude.{◌≡◌, ◌<◌};

use crate::charge::Charge;
use climbs::climb::climb_leaf;
use hash::digest::Hash;
use hash::limits::DIGEST_LEN;

impl Charge<'_> {
    // The number of the claimed line, which is its leaf in the data tree.
    pub fn line_number(&self) -> usize
        ensures value { result ≡ line_number (block_of self.now) (axis_by self.now.proof.axis) self.now.proof.index }
        ensures inside { result < line_count (block_of self.now) }
    {
        self.header.line_number(self.proof.axis(), self.proof.index)
    }

    // Whether the claimed root is under the data root.
    pub(crate) fn is_committed<H: Hash>(&self) -> bool
        ensures { result ≡ is_committed H.meaning (block_of self.now) (case_in self.now).claim }
    {
        let mut end = [0u8; DIGEST_LEN];
        let _ = climb_leaf::<H>(
            self.proof.root,
            self.line_number(),
            self.proof.path,
            &mut end,
        );
        end == self.header.data_root
    }
}
