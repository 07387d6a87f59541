// A padded message, absorbed block by block.
ghost use Rattle.std.specs.Prelude.{◌≡◌, ◌*◌, ◌<◌, length, replicate, refl};
ghost use Rattle.std.specs.List.{flat_map};
ghost use Rattle.sha3.specs.Lanes.{lanes, row_at};
ghost use Rattle.sha3.specs.Sponge.{absorbed, lane_at, lane_bytes, padding, squeezed, state_after};

use crate::permutation::{Row, State, permute, xor_row};
use hash::blocks::{Chain, PADDING_LIMIT};
use hash::limits::DIGEST_LEN;
use octets::window::clear;

// Bytes of a block.
pub(crate) const RATE: usize = 136;

// Lane i of a block, its lowest byte first.
fn lane(block: &[u8; RATE], i: usize) -> u64
    requires { i < 17 }
    ensures { result ≡ lane_at block.now (8 * i) }
{
    let (lanes, _) = block.as_chunks::<8>();
    u64::from_le_bytes(lanes[i])
}

// Five lanes of a block, from lane i on.
fn row(block: &[u8; RATE], i: usize) -> Row
    requires { i < 13 }
    ensures { result ≡ row_at block.now i }
{
    Row {
        a: lane(block, i),
        b: lane(block, i + 1),
        c: lane(block, i + 2),
        d: lane(block, i + 3),
        e: lane(block, i + 4),
    }
}

// The state with a block added.
fn with_block(s: State, block: &[u8; RATE]) -> State
    ensures { lanes result ≡ absorbed (lanes s) block.now 0 }
{
    State {
        r0: xor_row(s.r0, row(block, 0)),
        r1: xor_row(s.r1, row(block, 5)),
        r2: xor_row(s.r2, row(block, 10)),
        r3: Row {
            a: s.r3.a ^ lane(block, 15),
            b: s.r3.b ^ lane(block, 16),
            ..s.r3
        },
        ..s
    }
}

// The state of zeros.
fn empty_state() -> State
    ensures { lanes result ≡ replicate 25 0 }
{
    let zero = Row {
        a: 0,
        b: 0,
        c: 0,
        d: 0,
        e: 0,
    };
    State {
        r0: zero,
        r1: zero,
        r2: zero,
        r3: zero,
        r4: zero,
    }
}

// Writes the lanes one after the other, each with its lowest byte first. SHA-256 writes shorter words, their highest byte first: one
// function for both would take rows of bytes, and each caller would convert lane by lane to save this line.
fn put_lanes(out: &mut [u8], xs: &[u64])
    requires { length out.old ≡ 8 * length xs.now }
    ensures { out.new ≡ flat_map lane_bytes xs.now }
{
    // By place: of what `chunks_exact_mut` lends, no more than the length is known afterwards.
    for (i, x) in xs.iter().enumerate() {
        out[8 * i..8 * i + 8].copy_from_slice(&x.to_le_bytes());
    }
}

impl Chain<RATE> for State {
    ghost view = { lanes };

    ghost padding = { padding };

    ghost after = { state_after };

    ghost told = { squeezed };

    fn start() -> State {
        empty_state()
    }

    fn absorb(self, block: &[u8; RATE]) -> State {
        permute(with_block(self, block))
    }

    fn pad(buffer: &mut [u8; PADDING_LIMIT], len: usize) -> &[u8] {
        let count = RATE - len % RATE;
        clear(buffer);
        buffer[0] = 0x06;
        buffer[count - 1] |= 0x80;
        &buffer[..count]
    }

    fn finish(self) -> [u8; DIGEST_LEN] {
        let mut digest = [0u8; DIGEST_LEN];
        let row = self.r0;
        put_lanes(&mut digest, &[row.a, row.b, row.c, row.d]);
        digest
    }

    ghost block_some = { refl };
}
