// Which two climbs are compared.
ghost use Rattle.commitment.specs.Roots.{roots_of};
ghost use Rattle.extraction.specs.Extracted.{Compares};
ghost use Rattle.fraud.specs.Charge.{block_of, case_in};
ghost use Rattle.std.specs.Prelude.{◌≡◌, length};

use crate::comparison::Comparison;
use crate::lengths::STRING_LEN;
use hash::digest::Hash;

impl Comparison<'_> {
    // Compares the proof's climb and the square's own, at the first witness whose share is not the square's or else at the claimed root.
    // It writes the proof's string to `string_a` and the square's to `string_b`.
    pub(crate) fn compare<H: Hash>(
        &self,
        string_a: &mut [u8; STRING_LEN],
        string_b: &mut [u8; STRING_LEN],
    ) -> Option<usize>
        requires kinds { self.now.charge.header.now.hash_kind ≡ H.KIND }
        requires own { self.now.roots.now ≡ roots_of H.meaning (block_of self.now.charge) self.now.square.now }
        ensures { Compares H.meaning (block_of self.now.charge) self.now.square.now (case_in self.now.charge) result string_a.old string_b.old string_a.new string_b.new }
    {
        match self.first_against() {
            Some(w) => self.collide_at_witness::<H>(&w, string_a, string_b),
            None => self.collide_at_claim::<H>(string_a, string_b),
        }
    }
}
