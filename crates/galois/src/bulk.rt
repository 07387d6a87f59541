// The operations of the field on whole shares. Both loops are plain ones over bytes, so that they compile to vector code.
ghost use Rattle.galois.specs.Vectors.{added, doubled};
ghost use Rattle.std.specs.Prelude.{◌≡◌};

use crate::element::times_x;

// Adds a share to another, as far as both go.
pub fn add_share(sum: &mut [u8], share: &[u8])
    ensures { sum.new ≡ added sum.old share.now }
{
    let common = sum.len().min(share.len());
    // By index: of what is written through a `zip` over `iter_mut` a proof knows nothing.
    for i in 0..common {
        sum[i] ^= share[i];
    }
}

// Multiplies a share by x.
pub fn double_share(share: &mut [u8])
    ensures { share.new ≡ doubled share.old }
{
    for b in share.iter_mut() {
        *b = times_x(*b);
    }
}
