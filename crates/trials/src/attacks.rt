// Proofs against a block with one wrong share, and what the check answers to each.
use crate::accuse::{AT_0, AT_1, Claimed, ROW_1, Witnessed, proof_of};
use crate::block::{Block, SQUARE};
use erasure::code::Code;
use erasure::kinds::{Cauchy, Polynomial};
use fraud::check::check_proof;
use fraud::refusal::FraudRefusal;
use hash::digest::Hash;
use header::cell::Axis::{Column, Row};
use header::cell::Cell;
use header::header::Header;
use sha3::digest::Sha3;
use sha256::digest::Sha256;
use std::alloc::Global;
use std::process::Abort;
use std::test::*;

// The good square with 11 for 10 in row 1 and column 3.
const BAD: [u8; 16] = [1, 2, 7, 4, 3, 4, 13, 11, 5, 14, 19, 24, 7, 8, 25, 22];

// How a check ends: the proof is accepted, or refused by a number and its value, a byte place or a witness.
type End = Result<(), (u8, Option<usize>)>;

const ACCEPTED: End = Ok(());

fn told(refusal: FraudRefusal) -> (u8, Option<usize>) {
    match refusal {
        FraudRefusal::Unreadable(r) => (r.fault.number(), Some(r.at)),
        FraudRefusal::DoesNotVerify(i) => (20, Some(i)),
        _ => (refusal.number(), None),
    }
}

fn end_of<H: Hash, C: Code>(h: &Header, proof: &[u8]) -> End {
    check_proof::<H, C>(h, proof).map_err(told)
}

#[derive(Drop)]
struct Bench {
    heap: Global,
    bad: Block,
    good: Block,
}

impl Bench {
    fn expect(
        &self,
        rt: &impl Abort,
        claim: Claimed,
        witnesses: &[Witnessed],
        end: End,
    ) -> Result<(), Fail> {
        let proof = proof_of::<Sha256>(self.heap, &self.bad, claim, witnesses)?;
        assert_eq!(rt;
            end_of::<Sha256, Polynomial>(&self.bad.header, proof.as_slice()),
            end
        );
        Ok(())
    }

    fn good_proof(&self) -> Result<Vec<u8>, Fail> {
        proof_of::<Sha256>(self.heap, &self.bad, ROW_1, &[AT_0, AT_1])
    }
}

// Claims: a line that is sound, another index, a column climbed as a row.
fn claims(rt: &impl Abort, b: &Bench) -> Result<(), Fail> {
    b.expect(rt, ROW_1, &[AT_0, AT_1], ACCEPTED)?;
    let sound = Claimed {
        axis: Row,
        index: 0,
        root_of: 0,
        path_of: (Row, 0),
    };
    let on_row_0 = [
        Witnessed {
            place: 0,
            axis: Row,
            cell: Cell { row: 0, col: 0 },
        },
        Witnessed {
            place: 2,
            axis: Row,
            cell: Cell { row: 0, col: 2 },
        },
    ];
    b.expect(rt, sound, &on_row_0, Err((21, None)))?;
    let off_by_one = Claimed {
        axis: Row,
        index: 2,
        root_of: 1,
        path_of: (Row, 1),
    };
    b.expect(rt, off_by_one, &[AT_0, AT_1], Err((18, None)))?;
    let other_root = Claimed {
        axis: Row,
        index: 1,
        root_of: 2,
        path_of: (Row, 1),
    };
    b.expect(rt, other_root, &[AT_0, AT_1], Err((18, None)))?;
    let from_c = Claimed {
        axis: Column,
        index: 3,
        root_of: 7,
        path_of: (Row, 3),
    };
    b.expect(rt, from_c, &[AT_0, AT_1], Err((18, None)))
}

// Column 3 is badly coded too.
fn columns(rt: &impl Abort, b: &Bench) -> Result<(), Fail> {
    let column_3 = Claimed {
        axis: Column,
        index: 3,
        root_of: 7,
        path_of: (Column, 3),
    };
    let first = Witnessed {
        place: 0,
        axis: Column,
        cell: Cell { row: 0, col: 3 },
    };
    let second = Witnessed {
        place: 1,
        axis: Row,
        cell: Cell { row: 1, col: 3 },
    };
    b.expect(rt, column_3, &[first, second], ACCEPTED)?;
    let by_row_as_column = Witnessed {
        place: 0,
        axis: Column,
        cell: Cell { row: 3, col: 0 },
    };
    b.expect(
        rt,
        column_3,
        &[by_row_as_column, second],
        Err((20, Some(0))),
    )
}

// Witnesses: places that repeat or fall, a witness of another row, of another place, one too few, one too many.
fn witnesses(rt: &impl Abort, b: &Bench) -> Result<(), Fail> {
    b.expect(rt, ROW_1, &[AT_0, AT_0], Err((19, None)))?;
    b.expect(rt, ROW_1, &[AT_1, AT_0], Err((19, None)))?;
    let other_row = Witnessed {
        place: 0,
        axis: Row,
        cell: Cell { row: 2, col: 0 },
    };
    b.expect(rt, ROW_1, &[other_row, AT_1], Err((20, Some(0))))?;
    let other_place = Witnessed {
        place: 2,
        axis: Row,
        cell: Cell { row: 1, col: 3 },
    };
    b.expect(rt, ROW_1, &[AT_0, other_place], Err((20, Some(1))))?;
    b.expect(rt, ROW_1, &[], Err((10, Some(137))))?;
    b.expect(rt, ROW_1, &[AT_0], Err((10, Some(307))))?;
    b.expect(rt, ROW_1, &[AT_0, AT_1, AT_1], Err((10, Some(477))))
}

// Bytes behind the last witness, and headers that the proof is not for.
fn others(rt: &impl Abort, b: &Bench) -> Result<(), Fail> {
    let mut proof = b.good_proof()?;
    assert_eq!(rt;
        end_of::<Sha256, Polynomial>(&b.good.header, proof.as_slice()),
        Err((18, None))
    );
    let hash = end_of::<Sha3, Polynomial>(&b.bad.header, proof.as_slice());
    assert_eq!(rt; hash, Err((13, None)));
    let code = end_of::<Sha256, Cauchy>(&b.bad.header, proof.as_slice());
    assert_eq!(rt; code, Err((14, None)));
    proof.push(0)?;
    assert_eq!(rt;
        end_of::<Sha256, Polynomial>(&b.bad.header, proof.as_slice()),
        Err((7, Some(477)))
    );
    proof.extend_from_slice(&[0; 5])?;
    assert_eq!(rt;
        end_of::<Sha256, Polynomial>(&b.bad.header, proof.as_slice()),
        Err((8, Some(477)))
    );
    assert_eq!(rt;
        end_of::<Sha256, Polynomial>(&b.bad.header, &[]),
        Err((10, Some(0)))
    );
    Ok(())
}

// What the check answers where byte i of the good proof has all its bits turned: the claim record has 137 bytes, each witness record 170.
fn flipped_end(i: usize) -> End {
    let (start, inside, behind) = if i < 137 {
        (0, i, (18, None))
    } else if i < 307 {
        (137, i - 137, (20, Some(0)))
    } else {
        (307, i.wrapping_sub(307), (20, Some(1)))
    };
    Err(match inside {
        0 => (9, Some(start)),
        1..=3 => (7, Some(start)),
        4 | 5 => (8, Some(start)),
        6..=8 => (11, Some(start)),
        _ => behind,
    })
}

fn flips(rt: &impl Abort, b: &Bench) -> Result<(), Fail> {
    let proof = b.good_proof()?;
    assert_eq!(rt; proof.len(), 477);
    for i in 0..proof.len() {
        let mut bytes = proof.clone()?;
        let Some(byte) = bytes.get_mut(i) else {
            return Err(Fail::new("no such byte"));
        };
        *byte = *byte ^ 0xff;
        assert_eq!(rt;
            end_of::<Sha256, Polynomial>(&b.bad.header, bytes.as_slice()),
            flipped_end(i)
        );
    }
    Ok(())
}

#[test]
fn false_proofs(rt: HostRuntime) -> Result<(), Fail> {
    let b = Bench {
        heap: rt.alloc(),
        bad: Block::committed::<Sha256>(BAD)?,
        good: Block::committed::<Sha256>(SQUARE)?,
    };
    claims(&rt, &b)?;
    columns(&rt, &b)?;
    witnesses(&rt, &b)?;
    others(&rt, &b)?;
    flips(&rt, &b)
}
