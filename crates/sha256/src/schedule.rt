// The words of a block and those that are worked out from them, one for each round.
ghost use Rattle.std.specs.Prelude.{◌≡◌, ◌<◌, ◌≤◌, length};
ghost use Rattle.sha256.specs.Compression.{next_word, scheduled, small_sigma};
ghost use Rattle.sha256.specs.Message.{block_at};

use crate::compression::{rot, sum};

// Bytes of a block.
pub(crate) const BLOCK: usize = 64;

// x turned by two amounts and moved by a third, bit by bit added.
fn small_sigma(x: u32, i: u32, j: u32, k: u32) -> u32
    requires { k < 32 }
    ensures { result ≡ small_sigma i j k x }
{
    rot(x, i) ^ rot(x, j) ^ (x >> k)
}

// The next word of the schedule, from the words before `i`.
fn next_word(w: &[u32], i: usize) -> u32
    requires { (16 ≤ i) × (i ≤ length w.now) }
    ensures { result ≡ next_word i w.now }
{
    sum(
        sum(
            sum(small_sigma(w[i - 2], 17, 19, 10), w[i - 7]),
            small_sigma(w[i - 15], 7, 18, 3),
        ),
        w[i - 16],
    )
}

// The block's sixteen words and the 48 that are worked out from them.
pub(crate) fn schedule(block: &[u8; BLOCK]) -> [u32; 64]
    ensures { result ≡ scheduled (block_at block.now 0) }
{
    let mut w = [0; 64];
    let (words, _) = block.as_chunks::<4>();
    // By place: the words fill the front of the schedule, and the next loop its rest.
    for (t, bytes) in words.iter().enumerate() {
        w[t] = u32::from_be_bytes(*bytes);
    }
    // By place: each word is worked out from those before it.
    for j in 16..64 {
        w[j] = next_word(&w, j);
    }
    w
}
