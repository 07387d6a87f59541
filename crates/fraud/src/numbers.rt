// The numbers of the refusals.
ghost use Rattle.fraud.specs.Refusals.{told};
ghost use Rattle.std.specs.Prelude.{◌≡◌};

use crate::refusal::FraudRefusal;

impl FraudRefusal {
    // The number by which the call refuses.
    pub fn number(self) -> u8
        ensures { result ≡ (told self).number }
    {
        match self {
            FraudRefusal::WrongLength => 3,
            FraudRefusal::OtherHash => 13,
            FraudRefusal::OtherCode => 14,
            FraudRefusal::Unreadable(e) => e.fault.number(),
            FraudRefusal::RootNotCommitted => 18,
            FraudRefusal::PlacesNotRising => 19,
            FraudRefusal::DoesNotVerify(_) => 20,
            FraudRefusal::WellCoded => 21,
            FraudRefusal::OtherData => 27,
        }
    }
}
