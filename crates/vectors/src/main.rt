// Compares the library with values that other software has made. The files of `data` have them; the README under tools/vectors
// says where they come from.
#![tactic(auto)]

mod block;
mod blocks;
mod codewords;
mod digests;
mod kinds;
mod lines;
mod refusals;
mod text;

use std::alloc::Global;
use std::fs;

// Compares the file of this name.
fn show<F: Fn(Global, &str) -> anyhow::Result<bool>>(
    rt: &HostRuntime,
    name: &str,
    agrees: F,
) -> anyhow::Result<()>
    requires { F.IsAlwaysCallable agrees }
{
    let file = format!(in rt.alloc(); "{name}.txt")?;
    let lines = fs::read_to_string(rt, file.as_str())?;
    let count = lines::compare(rt.alloc(), lines.as_str(), agrees)?;
    println!(rt; "{name}: {count} agree")?;
    Ok(())
}

fn run(rt: &HostRuntime) -> anyhow::Result<()> {
    show(rt, "digests", digests::agrees)?;
    show(rt, "codes", codewords::agrees)?;
    show(rt, "blocks", blocks::agrees)?;
    let count = refusals::compare(rt.alloc())?;
    println!(rt; "refusals: {count} as expected")?;
    Ok(())
}

fn main(rt: HostRuntime) -> anyhow::Result<()> {
    run(&rt)
}
