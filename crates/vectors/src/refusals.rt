// Inputs that are refused, each with the number by which it is, and some that are not.
use crate::block::{Block, Shape, block_of};
use crate::kinds::{CodeKind, HashKind};
use anyhow::anyhow;
use erasure::calls::{encode, recover};
use erasure::kinds::Polynomial;
use evidence::check::check_share;
use evidence::write::evidence_of;
use hash::limits::DIGEST_LEN;
use header::cell::{Axis, Cell};
use header::make::make_header;
use header::refusal::SquareRefusal;
use sha3::digest::Sha3;
use sha256::digest::Sha256;
use square::extend::extend;
use std::alloc::Global;

// How a call ends: it answers, or refuses by a number.
type End = Result<(), u8>;

// Sizes of a block, and how many bytes its input lacks.
#[derive(Clone, Copy, Drop)]
struct Sizes {
    k: usize,
    s: usize,
    lacking: usize,
}

impl Sizes {
    fn new(k: usize, s: usize, lacking: usize) -> Sizes {
        Sizes { k, s, lacking }
    }
}

// Places of two shares of a codeword of four.
const PLACES: [([u16; 2], End); 4] = [
    ([1, 1], Err(5)),
    ([2, 1], Err(5)),
    ([1, 4], Err(5)),
    ([1, 3], Ok(())),
];

fn zeros(heap: Global, n: usize) -> anyhow::Result<Vec<u8>> {
    Ok(vec![in heap; 0u8; n]?)
}

// How `make_header` answers to a data root that lacks bytes.
fn try_header(heap: Global, sizes: Sizes) -> anyhow::Result<End> {
    let root = zeros(heap, DIGEST_LEN.saturating_sub(sizes.lacking))?;
    let answer = make_header(sizes.k, sizes.s, 1, 1, root.as_slice());
    Ok(answer.map(|_| ()).map_err(|refusal| refusal.number()))
}

// How `encode` answers to data that lack bytes.
fn try_encode(heap: Global, sizes: Sizes) -> anyhow::Result<End> {
    let n = sizes.k.saturating_mul(sizes.s);
    let shares = zeros(heap, n.saturating_sub(sizes.lacking))?;
    let mut word = zeros(heap, n.saturating_mul(2))?;
    let answer = encode::<Polynomial>(sizes.k, sizes.s, shares.as_slice(), word.as_mut_slice());
    Ok(answer.map_err(|refusal| refusal.number()))
}

// How `extend` answers to data that lack bytes.
fn try_extend(heap: Global, sizes: Sizes) -> anyhow::Result<End> {
    let n = sizes.k.saturating_mul(sizes.k).saturating_mul(sizes.s);
    let shares = zeros(heap, n.saturating_sub(sizes.lacking))?;
    let mut square = zeros(heap, n.saturating_mul(4))?;
    let mut roots = zeros(heap, sizes.k.saturating_mul(4).saturating_mul(DIGEST_LEN))?;
    let answer = extend::<Sha256, Polynomial>(
        sizes.k,
        sizes.s,
        shares.as_slice(),
        square.as_mut_slice(),
        roots.as_mut_slice(),
    );
    Ok(answer.map(|_| ()).map_err(|refusal| refusal.number()))
}

// How `recover` answers to these places.
fn try_recover(places: [u16; 2]) -> End {
    let mut word = [0u8; 4];
    recover::<Polynomial>(2, 1, &places, &[1, 2], &mut word).map_err(|refusal| refusal.number())
}

// Counts the answers that were expected, and stops at the first other.
#[derive(Drop)]
struct Tally {
    heap: Global,
    count: usize,
}

impl Tally {
    fn note(&mut self, call: &str, ours: End, expected: End) -> anyhow::Result<()> {
        if ours != expected {
            let heap = self.heap;
            return Err(anyhow!(format!(in heap;
                "{call} answers {ours:?} in place of {expected:?}"
            )?));
        }
        self.count = self.count.saturating_add(1);
        Ok(())
    }

    // What `check_share` answers.
    fn note_share(
        &mut self,
        answer: Result<(), SquareRefusal>,
        expected: End,
    ) -> anyhow::Result<()> {
        self.note(
            "check_share",
            answer.map_err(|refusal| refusal.number()),
            expected,
        )
    }
}

// How three calls answer to these sizes.
fn note_sizes(heap: Global, tally: &mut Tally, sizes: Sizes, expected: End) -> anyhow::Result<()> {
    tally.note("make_header", try_header(heap, sizes)?, expected)?;
    tally.note("encode", try_encode(heap, sizes)?, expected)?;
    tally.note("extend", try_extend(heap, sizes)?, expected)
}

fn note_all_sizes(heap: Global, tally: &mut Tally) -> anyhow::Result<()> {
    note_sizes(heap, tally, Sizes::new(3, 1, 0), Err(1))?;
    note_sizes(heap, tally, Sizes::new(2, 0, 0), Err(2))?;
    note_sizes(heap, tally, Sizes::new(2, 513, 0), Err(2))?;
    note_sizes(heap, tally, Sizes::new(2, 5, 1), Err(3))?;
    note_sizes(heap, tally, Sizes::new(32, 512, 0), Ok(()))
}

fn note_places(tally: &mut Tally) -> anyhow::Result<()> {
    for (places, expected) in PLACES {
        tally.note("recover", try_recover(places), expected)?;
    }
    Ok(())
}

// The evidence of the cell (1, 2) by its column, as it is, and with one fault each: another hash, a cell outside, a third axis, a
// path that is too short, a flipped share, another axis.
fn note_faults(tally: &mut Tally, block: &Block, path: &[u8]) -> anyhow::Result<()> {
    let h = &block.header;
    let cell = Cell { row: 1, col: 2 };
    let outside = Cell { row: 1, col: 4 };
    let share = block.share(cell);
    let flipped = [share.first().copied().unwrap_or(0) ^ 1];
    let short = path.get(1..).unwrap_or(&[]);
    tally.note_share(check_share::<Sha256>(h, cell, 1, share, path), Ok(()))?;
    tally.note_share(check_share::<Sha3>(h, cell, 1, share, path), Err(13))?;
    tally.note_share(check_share::<Sha256>(h, outside, 1, share, path), Err(15))?;
    tally.note_share(check_share::<Sha256>(h, cell, 2, share, path), Err(11))?;
    tally.note_share(check_share::<Sha256>(h, cell, 1, share, short), Err(3))?;
    tally.note_share(check_share::<Sha256>(h, cell, 1, &flipped, path), Err(20))?;
    tally.note_share(check_share::<Sha256>(h, cell, 0, share, path), Err(20))
}

fn note_shares(heap: Global, tally: &mut Tally) -> anyhow::Result<()> {
    let shape = Shape {
        hash: HashKind::Sha256,
        code: CodeKind::Polynomial,
        k: 2,
        s: 1,
    };
    let block = block_of(heap, shape)?;
    let mut path = zeros(heap, block.header.lengths().path)?;
    evidence_of::<Sha256>(
        &block.header,
        block.square.as_slice(),
        block.roots.as_slice(),
        Cell { row: 1, col: 2 },
        Axis::Column,
        path.as_mut_slice(),
    )?;
    note_faults(tally, &block, path.as_slice())
}

// Tries every input, and answers how many there are.
pub fn compare(heap: Global) -> anyhow::Result<usize> {
    let mut tally = Tally { heap, count: 0 };
    note_all_sizes(heap, &mut tally)?;
    note_places(&mut tally)?;
    note_shares(heap, &mut tally)?;
    Ok(tally.count)
}
