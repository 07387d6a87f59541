// A padded message, block by block.
ghost use Rattle.std.specs.Prelude.{◌≡◌, ◌+◌, ◌*◌, ◌≤◌, length, refl};
ghost use Rattle.std.specs.List.{flat_map};
ghost use Rattle.sha256.specs.Message.{long_bytes, padding, value_after, word_bytes};
ghost use Rattle.sha256.specs.Vars.{vars};
ghost use borrow.Rule.Slice.PartMut.{put_mid};

use crate::compression::{Work, compress, first_value};
use crate::schedule::BLOCK;
use hash::blocks::{Chain, PADDING_LIMIT};
use hash::limits::DIGEST_LEN;
use octets::window::clear;

// Writes the number of bits of a message of `len` bytes, in eight bytes from place `at` on, the highest first.
fn put_length(buffer: &mut [u8], at: usize, len: usize)
    requires { at + 8 ≤ length buffer.old }
    ensures { buffer.new ≡ put_mid at 8 buffer.old (long_bytes (8 * len)) }
{
    let bits = (len as u64).wrapping_mul(8);
    buffer[at..at + 8].copy_from_slice(&bits.to_be_bytes());
}

// Writes the words one after the other, each with its highest byte first. SHA3-256 writes longer ones, their lowest byte first: one
// function for both would take rows of bytes, and each caller would convert word by word to save this line.
fn put_words(out: &mut [u8], words: &[u32])
    requires { length out.old ≡ 4 * length words.now }
    ensures { out.new ≡ flat_map word_bytes words.now }
{
    // By place: of what `chunks_exact_mut` lends, no more than the length is known afterwards.
    for (i, word) in words.iter().enumerate() {
        out[4 * i..4 * i + 4].copy_from_slice(&word.to_be_bytes());
    }
}

impl Chain<BLOCK> for Work {
    ghost view = { vars };

    ghost padding = { padding };

    ghost after = { value_after };

    ghost told = { flat_map word_bytes };

    fn start() -> Work {
        first_value()
    }

    fn absorb(self, block: &[u8; BLOCK]) -> Work {
        compress(self, block)
    }

    fn pad(buffer: &mut [u8; PADDING_LIMIT], len: usize) -> &[u8] {
        let zeros = (119 - len % BLOCK) % BLOCK;
        clear(buffer);
        buffer[0] = 0x80;
        put_length(buffer, zeros + 1, len);
        &buffer[..zeros + 9]
    }

    fn finish(self) -> [u8; DIGEST_LEN] {
        let mut digest = [0u8; DIGEST_LEN];
        let v = self;
        put_words(&mut digest, &[v.a, v.b, v.c, v.d, v.e, v.f, v.g, v.h]);
        digest
    }

    ghost block_some = { refl };
}
