// SHA-256 as a hash of the library.
ghost use Rattle.sha256.specs.Message.{sha256};
ghost use Rattle.sha256.specs.Digests.{sha256_sized, sha256_bytes};

use crate::compression::Work;
use crate::schedule::BLOCK;
use hash::blocks::hash_blocks;
use hash::digest::Hash;
use hash::limits::DIGEST_LEN;
use hash::message::Message;

#[derive(Clone, Copy)]
pub struct Sha256;

impl Hash for Sha256 {
    const KIND: u8 = 1;

    ghost KIND = { 1 };

    ghost meaning = { sha256 };

    ghost sized = { sha256_sized };

    ghost bytes = { sha256_bytes };

    fn of(message: &Message) -> [u8; DIGEST_LEN] {
        hash_blocks::<Work, BLOCK>(message)
    }
}
