// The witnesses of a proof.
ghost use Rattle.std.specs.Prelude.{◌≡◌, length};
ghost use Rattle.fraud.specs.Accepted.{places_of, vouches};
ghost use Rattle.fraud.specs.Charge.{block_of, case_in};
ghost use Rattle.fraud.specs.Check.{first_failing};
ghost use Rattle.fraudproof.specs.Left.{witnesses_left};
ghost use Rattle.fraudproof.specs.Witness.{values_of};

use crate::charge::Charge;
use evidence::check::verified;
use fraudproof::cut::Witnesses;
use fraudproof::witness::Witness;
use hash::digest::Hash;

impl<'a> Charge<'a> {
    // Its k witnesses.
    pub fn witnesses(&self) -> Witnesses<'a, 'a>
        ensures { witnesses_left result ≡ (case_in self.now).witnesses }
    {
        self.proof.witnesses(self.header)
    }

    // Writes the places of all witnesses.
    pub(crate) fn put_places(&self, places: &mut [u16])
        requires { length places.old ≡ (block_of self.now).k }
        ensures { places.new ≡ places_of (case_in self.now).witnesses }
    {
        // By number: no contract says what a slice holds after a loop over `iter_mut` beside another iterator.
        for (i, witness) in self.witnesses().enumerate() {
            places[i] = witness.place;
        }
    }

    // Whether a witness verifies at the cell at its own place of the claimed line.
    fn is_verified<H: Hash>(&self, w: &Witness) -> bool
        ensures { result ≡ vouches H.meaning (block_of self.now) (case_in self.now).claim (values_of w.now) }
    {
        verified::<H>(
            self.header,
            self.proof.cell_of(w),
            w.axis(),
            w.share,
            w.path,
        )
    }

    // The number of the first witness that does not verify.
    pub(crate) fn first_unverified<H: Hash>(&self) -> Option<usize>
        ensures { result ≡ first_failing (vouches H.meaning (block_of self.now) (case_in self.now).claim) 0 (case_in self.now).witnesses }
    {
        self.witnesses().position(|w| !self.is_verified::<H>(&w))
    }
}
