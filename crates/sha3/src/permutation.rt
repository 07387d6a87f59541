// The permutation Keccak-f[1600]. The state is five rows of five lanes, passed by value from step to step. The lanes have names and not
// places: rho and pi give each one an amount or a place of its own, which an array would only number.
ghost use Rattle.sha3.specs.Keccak.{chi_of, iota_of, permuted, pi_of, rho_of, rotl, round_of, theta_of};
ghost use Rattle.sha3.specs.Lanes.{chi_row, effect_row, lanes, turn_row, xor_row};
ghost use Rattle.std.specs.Prelude.{◌≡◌};

// The lanes (0, y) to (4, y) of one y.
#[derive(Clone, Copy)]
pub struct Row {
    pub a: u64,
    pub b: u64,
    pub c: u64,
    pub d: u64,
    pub e: u64,
}

// All 25 lanes: row y has the lanes with the numbers 5y to 5y + 4.
#[derive(Clone, Copy)]
pub struct State {
    pub r0: Row,
    pub r1: Row,
    pub r2: Row,
    pub r3: Row,
    pub r4: Row,
}

// The bits of x turned left by `by` places. Clauses name it as the standard's operation on lanes.
fn rot(x: u64, by: u32) -> u64
    ensures { result ≡ rotl x by }
{
    x.rotate_left(by)
}

// Two rows, lane by lane.
pub(crate) fn xor_row(p: Row, q: Row) -> Row
    ensures { result ≡ xor_row p q }
{
    Row {
        a: p.a ^ q.a,
        b: p.b ^ q.b,
        c: p.c ^ q.c,
        d: p.d ^ q.d,
        e: p.e ^ q.e,
    }
}

// What is added to each row: of column x, the parity of the columns beside it.
fn effect(p: Row) -> Row
    ensures { result ≡ effect_row p }
{
    Row {
        a: p.e ^ rot(p.b, 1),
        b: p.a ^ rot(p.c, 1),
        c: p.b ^ rot(p.d, 1),
        d: p.c ^ rot(p.e, 1),
        e: p.d ^ rot(p.a, 1),
    }
}

// To each lane, what the columns beside it come to.
fn theta(s: State) -> State
    ensures { lanes result ≡ theta_of (lanes s) }
{
    let d = effect(xor_row(xor_row(xor_row(xor_row(s.r0, s.r1), s.r2), s.r3), s.r4));
    State {
        r0: xor_row(s.r0, d),
        r1: xor_row(s.r1, d),
        r2: xor_row(s.r2, d),
        r3: xor_row(s.r3, d),
        r4: xor_row(s.r4, d),
    }
}

// Each lane with the complement of the next one and the one after it.
fn chi_row(p: Row) -> Row
    ensures { result ≡ chi_row p }
{
    Row {
        a: p.a ^ (!p.b & p.c),
        b: p.b ^ (!p.c & p.d),
        c: p.c ^ (!p.d & p.e),
        d: p.d ^ (!p.e & p.a),
        e: p.e ^ (!p.a & p.b),
    }
}

fn chi(s: State) -> State
    ensures { lanes result ≡ chi_of (lanes s) }
{
    State {
        r0: chi_row(s.r0),
        r1: chi_row(s.r1),
        r2: chi_row(s.r2),
        r3: chi_row(s.r3),
        r4: chi_row(s.r4),
    }
}

// The round's constant, into lane (0, 0).
fn iota(s: State, rc: u64) -> State
    ensures { lanes result ≡ iota_of (lanes s) rc }
{
    let r0 = Row {
        a: s.r0.a ^ rc,
        ..s.r0
    };
    State { r0, ..s }
}

// Each lane turned by its own number of bits.
fn turn(p: Row, i: u32, j: u32, k: u32, l: u32, m: u32) -> Row
    ensures { result ≡ turn_row p i j k l m }
{
    Row {
        a: rot(p.a, i),
        b: rot(p.b, j),
        c: rot(p.c, k),
        d: rot(p.d, l),
        e: rot(p.e, m),
    }
}

// Every lane turned by its own number of bits.
fn rho(s: State) -> State
    ensures { lanes result ≡ rho_of (lanes s) }
{
    State {
        r0: turn(s.r0, 0, 1, 62, 28, 27),
        r1: turn(s.r1, 36, 44, 6, 55, 20),
        r2: turn(s.r2, 3, 10, 43, 25, 39),
        r3: turn(s.r3, 41, 45, 15, 21, 8),
        r4: turn(s.r4, 18, 2, 61, 56, 14),
    }
}

// Lane (x, y) comes from (x + 3y, x).
fn pi(s: State) -> State
    ensures { lanes result ≡ pi_of (lanes s) }
{
    let (p, q, r, t, u) = (s.r0, s.r1, s.r2, s.r3, s.r4);
    State {
        r0: Row {
            a: p.a,
            b: q.b,
            c: r.c,
            d: t.d,
            e: u.e,
        },
        r1: Row {
            a: p.d,
            b: q.e,
            c: r.a,
            d: t.b,
            e: u.c,
        },
        r2: Row {
            a: p.b,
            b: q.c,
            c: r.d,
            d: t.e,
            e: u.a,
        },
        r3: Row {
            a: p.e,
            b: q.a,
            c: r.b,
            d: t.c,
            e: u.d,
        },
        r4: Row {
            a: p.c,
            b: q.d,
            c: r.e,
            d: t.a,
            e: u.b,
        },
    }
}

// The five steps, with the round's constant.
fn round(s: State, rc: u64) -> State
    ensures { lanes result ≡ round_of (lanes s) rc }
{
    iota(chi(pi(rho(theta(s)))), rc)
}

// One for each round.
const ROUND_CONSTANTS: [u64; 24] = [
    0x0000000000000001,
    0x0000000000008082,
    0x800000000000808A,
    0x8000000080008000,
    0x000000000000808B,
    0x0000000080000001,
    0x8000000080008081,
    0x8000000000008009,
    0x000000000000008A,
    0x0000000000000088,
    0x0000000080008009,
    0x000000008000000A,
    0x000000008000808B,
    0x800000000000008B,
    0x8000000000008089,
    0x8000000000008003,
    0x8000000000008002,
    0x8000000000000080,
    0x000000000000800A,
    0x800000008000000A,
    0x8000000080008081,
    0x8000000000008080,
    0x0000000080000001,
    0x8000000080008008,
];

// All 24 rounds.
pub(crate) fn permute(s: State) -> State
    ensures { lanes result ≡ permuted (lanes s) }
{
    let mut t = s;
    for rc in &ROUND_CONSTANTS {
        t = round(t, *rc);
    }
    t
}
