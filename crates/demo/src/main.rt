// One small block from its beginning to its end, printed. What it writes is compared with the file `stdout`.
#![tactic(auto)]

mod block;
mod encoding;
mod hashes;
mod shares;
mod text;

fn run(rt: &HostRuntime) -> anyhow::Result<()> {
    hashes::show(rt)?;
    encoding::show(rt)?;
    block::show(rt)
}

fn main(rt: HostRuntime) -> anyhow::Result<()> {
    run(&rt)
}
