// One small block handed on: as a file, through layers of stores, and a proof that condemns a badly coded block and is refused against
// the good one. What it writes is compared with the file `stdout`.
#![tactic(auto)]

mod accusation;
mod block;
mod file;
mod layers;

use block::Block;
use erasure::kinds::Polynomial;
use sha256::digest::Sha256;
use square::extend::extend;

// The data, row by row.
const SHARES: [u8; 4] = [1, 2, 3, 4];

fn run(rt: &HostRuntime) -> anyhow::Result<()> {
    let mut square = [0u8; 16];
    let mut roots = [0u8; 256];
    let header = extend::<Sha256, Polynomial>(2, 1, &SHARES, &mut square, &mut roots)?;
    let block = Block {
        header,
        square,
        roots,
    };
    let bytes = file::written(rt, &block)?;
    file::show(rt, bytes.as_slice())?;
    layers::show(rt, &block.header, bytes.as_slice())?;
    accusation::show(rt, &block)
}

fn main(rt: HostRuntime) -> anyhow::Result<()> {
    run(&rt)
}
