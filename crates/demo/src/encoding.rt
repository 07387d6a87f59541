// A row of two shares, encoded by both codes, and recovered from two of the four.
use crate::text::numbers;
use erasure::calls::{encode, recover};
use erasure::code::Code;
use erasure::kinds::{Cauchy, Polynomial};

// The data, two shares of one byte.
const SHARES: [u8; 2] = [1, 2];

// The places of the shares that are not lost.
const KEPT: [u16; 2] = [1, 3];

fn encoded<C: Code>() -> anyhow::Result<[u8; 4]> {
    let mut word = [0u8; 4];
    encode::<C>(2, 1, &SHARES, &mut word)?;
    Ok(word)
}

fn recovered<C: Code>(kept: &[u8]) -> anyhow::Result<[u8; 4]> {
    let mut word = [0u8; 4];
    recover::<C>(2, 1, &KEPT, kept, &mut word)?;
    Ok(word)
}

fn show_code<C: Code>(rt: &HostRuntime, name: &str) -> anyhow::Result<()> {
    let word = encoded::<C>()?;
    let [_, second, _, fourth] = word;
    let again = recovered::<C>(&[second, fourth])?;
    let before = numbers(rt.alloc(), &word)?;
    let after = numbers(rt.alloc(), &again)?;
    println!(rt; "by the {name} code")?;
    println!(rt; "  encoded     {before}")?;
    println!(rt; "  two are lost   -{second:>4}   -{fourth:>4}")?;
    println!(rt; "  recovered   {after}")?;
    Ok(())
}

pub fn show(rt: &HostRuntime) -> anyhow::Result<()> {
    println!(rt; "")?;
    println!(rt;
        "A row of two shares of one byte, encoded to four; any two of the four give back all"
    )?;
    show_code::<Polynomial>(rt, "polynomial")?;
    show_code::<Cauchy>(rt, "Cauchy")
}
