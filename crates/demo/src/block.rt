// A block of two by two shares of one byte, extended.
use crate::shares;
use crate::text::numbers;
use erasure::kinds::Polynomial;
use hash::limits::DIGEST_LEN;
use header::header::Header;
use sha256::digest::Sha256;
use square::extend::extend;

// The data, row by row.
const SHARES: [u8; 4] = [1, 2, 3, 4];

// Cells of a row of the square.
const WIDTH: usize = 4;

fn show_square(rt: &HostRuntime, square: &[u8]) -> anyhow::Result<()> {
    println!(rt; "")?;
    println!(rt;
        "The block of rows 1 2 and 3 4, whose rows and then columns are encoded by the polynomial code"
    )?;
    for row in square.chunks(WIDTH) {
        let cells = numbers(rt.alloc(), row)?;
        println!(rt; "{cells}")?;
    }
    Ok(())
}

fn show_lines(rt: &HostRuntime, axis: &str, roots: &[u8]) -> anyhow::Result<()> {
    for (i, root) in roots.chunks(DIGEST_LEN).enumerate() {
        let digest = hex::encode(rt.alloc(), root)?;
        println!(rt; "  {axis:<6} {i}  {digest}")?;
    }
    Ok(())
}

fn show_roots(rt: &HostRuntime, roots: &[u8; 256]) -> anyhow::Result<()> {
    println!(rt; "")?;
    println!(rt; "The roots of the trees over its lines, by SHA-256")?;
    show_lines(rt, "row", &roots[0..128])?;
    show_lines(rt, "column", &roots[128..256])
}

fn show_header(rt: &HostRuntime, h: &Header) -> anyhow::Result<()> {
    let root = hex::encode(rt.alloc(), h.data_root.as_slice())?;
    println!(rt; "")?;
    println!(rt; "Its header, with the root of the tree over these roots")?;
    println!(rt; "  k           {}", h.k)?;
    println!(rt; "  share size  {}", h.s)?;
    println!(rt; "  hash kind   {}", h.hash_kind)?;
    println!(rt; "  code kind   {}", h.code_kind)?;
    println!(rt; "  data root   {root}")?;
    Ok(())
}

pub fn show(rt: &HostRuntime) -> anyhow::Result<()> {
    let mut square = [0u8; 16];
    let mut roots = [0u8; 256];
    let h = extend::<Sha256, Polynomial>(2, 1, &SHARES, &mut square, &mut roots)?;
    show_square(rt, &square)?;
    show_roots(rt, &roots)?;
    show_header(rt, &h)?;
    shares::show(rt, &h, &square, &roots)
}
