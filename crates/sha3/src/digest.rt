// SHA3-256 as a hash of the library.
ghost use Rattle.sha3.specs.Sponge.{sha3};
ghost use Rattle.sha3.specs.Digests.{sha3_sized, sha3_bytes};

use crate::permutation::State;
use crate::sponge::RATE;
use hash::blocks::hash_blocks;
use hash::digest::Hash;
use hash::limits::DIGEST_LEN;
use hash::message::Message;

#[derive(Clone, Copy)]
pub struct Sha3;

impl Hash for Sha3 {
    const KIND: u8 = 2;

    ghost KIND = { 2 };

    ghost meaning = { sha3 };

    ghost sized = { sha3_sized };

    ghost bytes = { sha3_bytes };

    fn of(message: &Message) -> [u8; DIGEST_LEN] {
        hash_blocks::<State, RATE>(message)
    }
}
