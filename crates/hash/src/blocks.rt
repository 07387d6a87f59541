// Hashes that work through a padded message block by block.
ghost use Rattle.std.specs.Prelude.{◌≡◌, ◌+◌, ◌*◌, ℕ, true, List};
ghost use Rattle.octets.specs.Window.{window};
ghost use Rattle.hash.specs.Blocks.{after_all, ok_block};

use crate::limits::DIGEST_LEN;
use crate::message::Message;

// The most bytes that follow a message in its last blocks.
pub const PADDING_LIMIT: usize = 136;

// What a hash carries from one block of a padded message to the next. A block has BLOCK bytes.
pub trait Chain<const BLOCK: usize>: Copy {
    // The value as its standard writes it.
    ghost view: { Self → List ℕ };

    // What follows a message of so many bytes.
    ghost padding: { ℕ → List ℕ };

    // The value after so many blocks of a padded message.
    ghost after: { List ℕ → ℕ → List ℕ };

    // The digest that the last value gives.
    ghost told: { List ℕ → List ℕ };

    // The value before the first block.
    fn start() -> Self
        ensures { (p : List ℕ) → view result ≡ after p 0 };

    // The value after one block more.
    fn absorb(self, block: &[u8; BLOCK]) -> Self
        ensures { (p : List ℕ) (n : ℕ) → view self ≡ after p n → block.now ≡ window p (BLOCK * n) BLOCK → view result ≡ after p (n + 1) };

    // Writes what follows a message of `len` bytes to the front of a buffer, and gives that front.
    fn pad(buffer: &mut [u8; PADDING_LIMIT], len: usize) -> &[u8]
        ensures { result.now ≡ padding len };

    // The digest, from the value after the last block.
    fn finish(self) -> [u8; DIGEST_LEN]
        ensures { result ≡ told (view self) };

    ghost block_some: { ok_block BLOCK ≡ true };
}

// The digest of a message by the hash that carries a C.
pub fn hash_blocks<C: Chain<BLOCK>, const BLOCK: usize>(message: &Message) -> [u8; DIGEST_LEN]
    ensures { result ≡ C.told (after_all C.padding C.after BLOCK message.now) }
{
    let mut buffer = [0u8; PADDING_LIMIT];
    let tail = C::pad(&mut buffer, message.len());
    let parts = message.followed_by(tail);
    let blocks = (message.len() + tail.len()) / BLOCK;
    let mut value = C::start();
    // Counted: the parts lie apart, so there is no slice that `chunks_exact` could cut.
    for n in 0..blocks {
        let mut block = [0u8; BLOCK];
        parts.gather(&mut block, BLOCK * n);
        value = value.absorb(&block);
    }
    value.finish()
}
