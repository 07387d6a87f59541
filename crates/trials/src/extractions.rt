// False proofs against a good block under a hash that is easily broken, and the collisions that are extracted from them.
use crate::accuse::{AT_0, AT_1, ROW_1, Witnessed, proof_of};
use crate::block::{Block, SQUARE};
use erasure::kinds::Polynomial;
use extraction::extract::extract;
use fraud::check::check_proof;
use hash::digest::Hash;
use header::cell::{Axis, Cell};
use std::alloc::Global;
use std::process::Abort;
use std::test::*;
use weakhash::Weak;

const DATA: [u8; 4] = [1, 2, 3, 4];

const AT_1_BY_ROW: Witnessed = Witnessed {
    place: 1,
    axis: Axis::Row,
    cell: Cell { row: 1, col: 1 },
};

fn digest_of(string: &[u8]) -> Result<[u8; 32], Fail> {
    let mut digest = [0u8; 32];
    let [lead, rest @ ..] = string else {
        return Err(Fail::new("no string"));
    };
    Weak::digest(*lead, rest, &[], &mut digest)?;
    Ok(digest)
}

// Extracts from an accepted proof: the strings differ, have one digest, and nothing is written behind them.
fn extracted(rt: &impl Abort, b: &Block, proof: &[u8]) -> Result<usize, Fail> {
    let mut one = [0xaau8; 513];
    let mut other = [0xbbu8; 513];
    let mut scratch = [0u8; 16];
    let n = extract::<Weak, Polynomial>(
        &b.header,
        &DATA,
        proof,
        &mut one,
        &mut other,
        &mut scratch,
    )?;
    assert!(rt; n < 513);
    assert!(rt; one[0..n] != other[0..n], "the strings differ");
    let first = digest_of(&one[0..n])?;
    let second = digest_of(&other[0..n])?;
    assert!(rt; first == second, "they have one digest");
    assert!(rt; one[n] == 0xaa);
    assert!(rt; other[n] == 0xbb);
    Ok(n)
}

// Of every byte that a change puts into the good block: how many of the proofs are accepted, and of how many of them the collision is
// at the first level, where a string has `first` bytes.
#[derive(Clone, Copy, Drop)]
struct Counts {
    accepted: usize,
    at_first: usize,
}

fn try_all<F: Fn(&mut Block, u8)>(
    rt: &impl Abort,
    heap: Global,
    witnesses: &[Witnessed],
    first: usize,
    change: F,
) -> Result<Counts, Fail>
    requires { F.IsAlwaysCallable change }
{
    let good = Block::committed::<Weak>(SQUARE)?;
    let mut lengths = Vec::new(heap);
    for x in 0..=255u8 {
        let mut b = good;
        change(&mut b, x);
        let proof = proof_of::<Weak>(heap, &b, ROW_1, witnesses)?;
        if check_proof::<Weak, Polynomial>(&b.header, proof.as_slice()).is_ok() {
            lengths.push(extracted(rt, &b, proof.as_slice())?)?;
        }
    }
    Ok(Counts {
        accepted: lengths.len(),
        at_first: lengths.iter().filter(|n| **n == first).count(),
    })
}

#[test]
fn false_proofs_give_collisions(rt: HostRuntime) -> Result<(), Fail> {
    // Other shares at row 1 and column 0, with the path of the true one.
    let shares = try_all(&rt, rt.alloc(), &[AT_0, AT_1], 2, |b, x| b.square[4] = x)?;
    assert!(rt;
        shares.at_first > 0 && shares.at_first < shares.accepted,
        "collisions at the leaf and above it"
    );
    // Other roots claimed for row 1, with the path of the true one, and true witnesses.
    let roots = try_all(
        &rt,
        rt.alloc(),
        &[AT_0, AT_1_BY_ROW],
        33,
        |b, x| b.roots[40] = x,
    )?;
    assert!(rt;
        roots.at_first > 0 && roots.at_first < roots.accepted,
        "collisions at the claimed root and above it"
    );
    Ok(())
}
