// Codewords, and their recovery from half of their shares.
use crate::kinds::CodeKind;
use crate::text::{bytes, number, word};
use anyhow::anyhow;
use erasure::calls::{encode, recover};
use erasure::code::Code;
use erasure::kinds::{Cauchy, Polynomial};
use std::alloc::Global;
use std::str::SplitWhitespace;

// k shares of s bytes, and the 2k shares that they encode to.
#[derive(Drop)]
struct Codeword {
    k: u16,
    s: usize,
    shares: Vec<u8>,
    word: Vec<u8>,
}

impl Codeword {
    // The shares at some places, one after the other.
    fn shares_at(&self, heap: Global, places: &[u16]) -> anyhow::Result<Vec<u8>> {
        let mut shares = Vec::new(heap);
        for place in places {
            let from = usize::from(*place).wrapping_mul(self.s);
            let share = self.word.as_slice().get(from..from.wrapping_add(self.s));
            shares.extend_from_slice(share.unwrap_or(&[]))?;
        }
        Ok(shares)
    }

    fn encodes<C: Code>(&self, heap: Global) -> anyhow::Result<bool> {
        let mut out = vec![in heap; 0u8; self.word.len()]?;
        let answer = encode::<C>(
            usize::from(self.k),
            self.s,
            self.shares.as_slice(),
            out.as_mut_slice(),
        );
        Ok(answer.is_ok() && out.as_slice() == self.word.as_slice())
    }

    fn recovers<C: Code>(&self, heap: Global, places: &[u16]) -> anyhow::Result<bool> {
        let shares = self.shares_at(heap, places)?;
        let mut out = vec![in heap; 0u8; self.word.len()]?;
        let answer = recover::<C>(
            usize::from(self.k),
            self.s,
            places,
            shares.as_slice(),
            out.as_mut_slice(),
        );
        Ok(answer.is_ok() && out.as_slice() == self.word.as_slice())
    }

    // Whether a code encodes the shares to the word, and recovers it from its last k shares and from every second one.
    fn holds<C: Code>(&self, heap: Global) -> anyhow::Result<bool> {
        let last: Vec<u16> = (0..self.k).map(|j| self.k.wrapping_add(j)).collect(heap)?;
        let even: Vec<u16> = (0..self.k).map(|j| j.wrapping_mul(2)).collect(heap)?;
        Ok(
            self.encodes::<C>(heap)?
                && self.recovers::<C>(heap, last.as_slice())?
                && self.recovers::<C>(heap, even.as_slice())?,
        )
    }
}

// `K S DATA WORD`
fn read_codeword(heap: Global, words: &mut SplitWhitespace<'_>) -> anyhow::Result<Codeword> {
    let k = word(words)?.parse::<u16>()?;
    let s = number(words)?;
    let shares = bytes(heap, words)?;
    let word = bytes(heap, words)?;
    Ok(Codeword { k, s, shares, word })
}

// Whether the library answers as a line of `codes.txt` says: `encode CODE K S DATA WORD`.
pub fn agrees(heap: Global, line: &str) -> anyhow::Result<bool> {
    let mut words = line.split_whitespace();
    if word(&mut words)? != "encode" {
        return Err(anyhow!("a line has an unknown word"));
    }
    let code = number(&mut words)?;
    let codeword = read_codeword(heap, &mut words)?;
    match CodeKind::try_from(code)? {
        CodeKind::Polynomial => codeword.holds::<Polynomial>(heap),
        CodeKind::Cauchy => codeword.holds::<Cauchy>(heap),
    }
}
