// The judgement of a proof that was read.
ghost use Rattle.octets.specs.Outcome.{outcome};
ghost use Rattle.fraud.specs.Charge.{block_of, case_in};
ghost use Rattle.fraud.specs.Check.{Decides, judged};
ghost use Rattle.fraud.specs.Refusals.{told};
ghost use Rattle.std.specs.Prelude.{◌≡◌, length};

use crate::charge::Charge;
use crate::refusal::FraudRefusal;
use crate::shown::Shown;
use erasure::code::Code;
use erasure::places::are_rising;
use hash::digest::Hash;

// The most witnesses that a proof has. The library allocates nothing, so fewer take the front of as many.
const PLACES_ROOM: usize = 32;

impl Charge<'_> {
    // Judges it; `places` is where the places of its witnesses are written.
    fn judge_in<H: Hash, C: Code>(&self, places: &mut [u16]) -> Result<(), FraudRefusal>
        requires { length places.old ≡ (block_of self.now).k }
        ensures answer { outcome told result ≡ judged H.Hash.meaning C.Code.weight (block_of self.now) (case_in self.now) }
        ensures decides { Decides H.Hash.meaning C.Code.table (block_of self.now) (case_in self.now) (judged H.Hash.meaning C.Code.weight (block_of self.now) (case_in self.now)) }
    {
        if !self.is_committed::<H>() {
            return Err(FraudRefusal::RootNotCommitted);
        }
        self.put_places(places);
        if !are_rising(places, 2 * self.header.k as usize) {
            return Err(FraudRefusal::PlacesNotRising);
        }
        if let Some(i) = self.first_unverified::<H>() {
            return Err(FraudRefusal::DoesNotVerify(i));
        }
        let shown = Shown::of(self.header, places, self.proof.witnesses);
        if shown.has_root::<H, C>(self.proof.root) {
            return Err(FraudRefusal::WellCoded);
        }
        Ok(())
    }

    // Judges it.
    pub(crate) fn judge<H: Hash, C: Code>(&self) -> Result<(), FraudRefusal>
        ensures answer { outcome told result ≡ judged H.Hash.meaning C.Code.weight (block_of self.now) (case_in self.now) }
        ensures decides { Decides H.Hash.meaning C.Code.table (block_of self.now) (case_in self.now) (judged H.Hash.meaning C.Code.weight (block_of self.now) (case_in self.now)) }
    {
        let k = self.header.k as usize;
        let mut room = [0u16; PLACES_ROOM];
        let places = &mut room[0..k];
        self.judge_in::<H, C>(places)
    }
}
