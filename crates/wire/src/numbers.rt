// The numbers of the refusals.
ghost use Rattle.wire.specs.Refusals.{fault_number, told_write};
ghost use Rattle.std.specs.Prelude.{◌≡◌};

use crate::refusal::{Fault, WriteRefusal};

impl Fault {
    // The number by which the record is refused.
    pub fn number(self) -> u8
        ensures { result ≡ fault_number self }
    {
        match self {
            Fault::CutShort => 7,
            Fault::UnknownKind => 8,
            Fault::NotDue => 10,
            Fault::WrongBody => 9,
            Fault::OutOfRange => 11,
        }
    }
}

impl WriteRefusal {
    // The number by which the call refuses.
    pub fn number(self) -> u8
        ensures { result ≡ (told_write self).number }
    {
        match self {
            WriteRefusal::OutOfRange => 11,
            WriteRefusal::WrongLength => 3,
        }
    }
}
