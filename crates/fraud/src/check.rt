// Checking the bytes of a proof.
ghost use Rattle.octets.specs.Outcome.{outcome};
ghost use Rattle.fraud.specs.Check.{Accepts, check_outcome};
ghost use Rattle.fraud.specs.Refusals.{told};
ghost use Rattle.header.specs.Fields.{fields_of};
ghost use Rattle.std.specs.Prelude.{◌≡◌};

use crate::charge::Charge;
use crate::refusal::FraudRefusal;
use erasure::code::Code;
use fraudproof::read::read_proof;
use hash::digest::Hash;
use header::header::Header;

// Checks a proof that the block of a header is badly encoded: it is accepted where nothing is refused.
pub fn check_proof<H: Hash, C: Code>(h: &Header, bytes: &[u8]) -> Result<(), FraudRefusal>
    ensures answer { outcome told result ≡ check_outcome H.Hash.meaning C.Code.weight H.Hash.KIND C.Code.KIND (fields_of h.now) bytes.now }
    ensures accepts { Accepts H.Hash.meaning C.Code.table H.Hash.KIND C.Code.KIND (fields_of h.now) bytes.now (outcome told result) }
{
    // Tested here although an extraction has tested them too: there a wrong length is refused after the kinds and before the rest.
    if h.hash_kind != H::KIND {
        return Err(FraudRefusal::OtherHash);
    }
    if h.code_kind != C::KIND {
        return Err(FraudRefusal::OtherCode);
    }
    let charge = Charge {
        header: h,
        proof: read_proof(h, bytes)?,
    };
    charge.judge::<H, C>()
}
