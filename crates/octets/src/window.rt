// Parts of a message laid over a block of it.
ghost use Rattle.std.specs.Prelude.{◌≡◌, ℕ, ◌+◌, ◌-◌, ◌<◌, ◌≤◌, length, replicate, slice_index};
ghost use Rattle.octets.specs.Window.{laid, overlaid_at};

// Writes the bytes of `part` from place `from` on into `block` from place `at` on, as many as there are and as fit.
fn overlay(block: &mut [u8], at: usize, part: &[u8], from: usize)
    requires { (at ≤ length block.old) × (from ≤ length part.now) }
    ensures { (j : ℕ) → j < length block.old → slice_index block.new j ≡ overlaid_at block.old at part.now from j }
{
    let room = block.len() - at;
    let left = part.len() - from;
    let n = room.min(left);
    block[at..at + n].copy_from_slice(&part[from..from + n]);
}

// Lays a part of a message over a block of it. The block begins at place `start` of the message and the part at place `begin`; bytes
// of the block that the part does not cover stay.
pub(crate) fn lay(block: &mut [u8], start: usize, begin: u128, part: &[u8])
    ensures { block.new ≡ laid block.old start begin part.now }
{
    let start = start as u128;
    if begin <= start {
        let from = start - begin;
        if from < part.len() as u128 {
            overlay(block, 0, part, from as usize);
        }
    } else {
        let at = begin - start;
        if at < block.len() as u128 {
            overlay(block, at as usize, part, 0);
        }
    }
}

// Writes 0 everywhere.
pub fn clear(block: &mut [u8])
    ensures { block.new ≡ replicate (length block.old) 0 }
{
    block.fill(0);
}
