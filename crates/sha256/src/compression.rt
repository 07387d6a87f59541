// The compression function: one block worked into eight variables.
ghost use Rattle.std.specs.Prelude.{◌≡◌};
ghost use Rattle.sha256.specs.Compression.{add, big_sigma, choose, compressed, initial, majority, round_of, rotr, sums, up_to};
ghost use Rattle.sha256.specs.Message.{block_at};
ghost use Rattle.sha256.specs.Vars.{vars};

use crate::schedule::{BLOCK, schedule};

// The eight working variables, which are the hash value between blocks. They have the standard's names, a to h, and not places in an
// array: a round gives each of them a rule of its own, which is read beside the standard's.
#[derive(Clone, Copy)]
pub struct Work {
    pub a: u32,
    pub b: u32,
    pub c: u32,
    pub d: u32,
    pub e: u32,
    pub f: u32,
    pub g: u32,
    pub h: u32,
}

// Addition modulo 2^32. Clauses name it and `rot` as the standard's operations on words.
pub(crate) fn sum(x: u32, y: u32) -> u32
    ensures { result ≡ add x y }
{
    x.wrapping_add(y)
}

// The bits of x turned right by `by` places.
pub(crate) fn rot(x: u32, by: u32) -> u32
    ensures { result ≡ rotr x by }
{
    x.rotate_right(by)
}

// x turned by three amounts, bit by bit added.
fn big_sigma(x: u32, i: u32, j: u32, k: u32) -> u32
    ensures { result ≡ big_sigma i j k x }
{
    rot(x, i) ^ rot(x, j) ^ rot(x, k)
}

// Of each bit: y's where x has 1, z's where it has 0.
fn ch(x: u32, y: u32, z: u32) -> u32
    ensures { result ≡ choose x y z }
{
    (x & y) ^ (!x & z)
}

// Of each bit: what two of the three have.
fn maj(x: u32, y: u32, z: u32) -> u32
    ensures { result ≡ majority x y z }
{
    (x & y) ^ (x & z) ^ (y & z)
}

// One round, with its constant and its word of the schedule.
fn round(v: Work, k: u32, w: u32) -> Work
    ensures { vars result ≡ round_of (vars v) k w }
{
    let t1 = sum(
        sum(
            sum(sum(v.h, big_sigma(v.e, 6, 11, 25)), ch(v.e, v.f, v.g)),
            k,
        ),
        w,
    );
    let t2 = sum(big_sigma(v.a, 2, 13, 22), maj(v.a, v.b, v.c));
    Work {
        a: sum(t1, t2),
        b: v.a,
        c: v.b,
        d: v.c,
        e: sum(v.d, t1),
        f: v.e,
        g: v.f,
        h: v.g,
    }
}

// The first 32 bits of the fractional parts of the cube roots of the first 64 primes.
const K: [u32; 64] = [
    0x428a2f98, 0x71374491, 0xb5c0fbcf, 0xe9b5dba5, 0x3956c25b, 0x59f111f1, 0x923f82a4, 0xab1c5ed5,
    0xd807aa98, 0x12835b01, 0x243185be, 0x550c7dc3, 0x72be5d74, 0x80deb1fe, 0x9bdc06a7, 0xc19bf174,
    0xe49b69c1, 0xefbe4786, 0x0fc19dc6, 0x240ca1cc, 0x2de92c6f, 0x4a7484aa, 0x5cb0a9dc, 0x76f988da,
    0x983e5152, 0xa831c66d, 0xb00327c8, 0xbf597fc7, 0xc6e00bf3, 0xd5a79147, 0x06ca6351, 0x14292967,
    0x27b70a85, 0x2e1b2138, 0x4d2c6dfc, 0x53380d13, 0x650a7354, 0x766a0abb, 0x81c2c92e, 0x92722c85,
    0xa2bfe8a1, 0xa81a664b, 0xc24b8b70, 0xc76c51a3, 0xd192e819, 0xd6990624, 0xf40e3585, 0x106aa070,
    0x19a4c116, 0x1e376c08, 0x2748774c, 0x34b0bcb5, 0x391c0cb3, 0x4ed8aa4a, 0x5b9cca4f, 0x682e6ff3,
    0x748f82ee, 0x78a5636f, 0x84c87814, 0x8cc70208, 0x90befffa, 0xa4506ceb, 0xbef9a3f7, 0xc67178f2,
];

// All 64 rounds.
fn rounds(v: Work, w: &[u32; 64]) -> Work
    ensures { vars result ≡ up_to w.now (vars v) 64 }
{
    let mut t = v;
    for (k, w) in K.iter().zip(w) {
        t = round(t, *k, *w);
    }
    t
}

// The variables before the rounds and after them, added word by word. They are named, so no `zip` goes along them.
fn total(v: Work, t: Work) -> Work
    ensures { vars result ≡ sums (vars v) (vars t) }
{
    Work {
        a: sum(v.a, t.a),
        b: sum(v.b, t.b),
        c: sum(v.c, t.c),
        d: sum(v.d, t.d),
        e: sum(v.e, t.e),
        f: sum(v.f, t.f),
        g: sum(v.g, t.g),
        h: sum(v.h, t.h),
    }
}

// The hash value after one block more.
pub(crate) fn compress(v: Work, block: &[u8; BLOCK]) -> Work
    ensures { vars result ≡ compressed (vars v) (block_at block.now 0) }
{
    total(v, rounds(v, &schedule(block)))
}

// The hash value before the first block: the first 32 bits of the fractional parts of the square roots of the first eight primes.
pub(crate) fn first_value() -> Work
    ensures { vars result ≡ initial }
{
    Work {
        a: 0x6a09e667,
        b: 0xbb67ae85,
        c: 0x3c6ef372,
        d: 0xa54ff53a,
        e: 0x510e527f,
        f: 0x9b05688c,
        g: 0x1f83d9ab,
        h: 0x5be0cd19,
    }
}
