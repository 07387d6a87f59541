// The leaf digests of a block's shares, by both hashes.
use hash::digest::Hash;
use hash::limits::DIGEST_LEN;
use sha3::digest::Sha3;
use sha256::digest::Sha256;
use std::alloc::Global;

// A block of two by two shares of eight bytes.
const SHARES: [&str; 4] = ["share 00", "share 01", "share 10", "share 11"];

// The digest of a share as a leaf of a tree: lead byte 0 and the share.
fn leaf<H: Hash>(heap: Global, share: &[u8]) -> anyhow::Result<String> {
    let mut digest = [0u8; DIGEST_LEN];
    H::digest(0, share, &[], &mut digest)?;
    Ok(hex::encode(heap, digest.as_slice())?)
}

pub fn show(rt: &HostRuntime) -> anyhow::Result<()> {
    println!(rt; "A block of 2 by 2 shares, and the leaf digest of each share")?;
    for share in SHARES {
        let plain = leaf::<Sha256>(rt.alloc(), share.as_bytes())?;
        let sponge = leaf::<Sha3>(rt.alloc(), share.as_bytes())?;
        println!(rt; "{share}")?;
        println!(rt; "  by SHA-256   {plain}")?;
        println!(rt; "  by SHA3-256  {sponge}")?;
    }
    Ok(())
}
