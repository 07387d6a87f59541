// A hash that anyone can break, to try out what follows from a collision. No block should use it.
#![tactic(auto)]

ghost use Rattle.weakhash.specs.Weak.{weak, weakened};
ghost use Rattle.std.specs.Prelude.{◌≡◌};
ghost use Rattle.sha256.specs.Message;
ghost use Rattle.weakhash.specs.Few.{few_sized, few_bytes};

use hash::digest::Hash;
use hash::limits::DIGEST_LEN;
use hash::message::Message;
use sha256::digest::Sha256;

pub struct Weak;

// Leaves four bits of a digest.
#[tactic(auto, unfolding(crate::specs::Weak::weakened))]
fn weaken(digest: &[u8; DIGEST_LEN]) -> [u8; DIGEST_LEN]
    ensures { result ≡ weakened digest.now }
{
    let mut few = [0; DIGEST_LEN];
    few[0] = digest[0] % 16;
    few
}

impl Hash for Weak {
    const KIND: u8 = 200;

    ghost KIND = { 200 };

    ghost meaning = { weak };

    ghost sized = { λ m. few_sized (Message.sha256 m) };

    ghost bytes = { λ m i. few_bytes (Message.sha256 m) i };

    fn of(message: &Message) -> [u8; DIGEST_LEN] {
        weaken(&Sha256::of(message))
    }
}
