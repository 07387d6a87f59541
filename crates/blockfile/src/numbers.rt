// The numbers of the refusals.
ghost use Rattle.blockfile.specs.Refusals.{told};
ghost use Rattle.std.specs.Prelude.{◌≡◌};

use crate::refusal::FileRefusal;

impl FileRefusal {
    // The number by which the file is refused.
    pub fn number(self) -> u8
        ensures { result ≡ (told self).number }
    {
        match self {
            FileRefusal::TooLong => 6,
            FileRefusal::Read(e) => e.fault.number(),
            FileRefusal::SeenTwice { .. } => 12,
        }
    }
}
