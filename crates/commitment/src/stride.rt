// The digests of values that stand in a buffer at even steps: those of a run are one apart, and those of a column a row apart.
ghost use Rattle.std.specs.Prelude.{◌≡◌, ℕ, ◌+◌, ◌*◌, ◌^◌, ◌<◌, ◌≤◌, length};
ghost use Rattle.commitment.specs.Values.{value_leaf};
ghost use Rattle.hash.specs.Digests.{digest_len, parts_limit};
ghost use Rattle.merkle.specs.Climb.{slot};

use climbs::node;
use hash::digest::Hash;
use hash::limits::DIGEST_LEN;
use layout::entry::put_entry;

// Which values of a buffer: that with number `first`, and then each `step` further.
#[derive(Clone, Copy)]
pub(crate) struct Stride {
    pub(crate) first: usize,
    pub(crate) step: usize,
}

// The digest of the value with number `n`, of `size` bytes.
fn leaf<H: Hash>(values: &[u8], size: usize, n: usize) -> [u8; DIGEST_LEN]
    requires { (size ≤ parts_limit) × ((n < 2 ^ 32) × (n * size + size ≤ length values.now)) }
    ensures { result ≡ value_leaf H.meaning size values.now n }
{
    // No value here is too long, so what stands for a refusal is never given.
    node::leaf::<H>(&values[n * size..n * size + size]).unwrap_or([0u8; DIGEST_LEN])
}

// Writes the digests of the first `count` of such values, of `size` bytes each, as entries one after the other.
pub(crate) fn put_leaves<H: Hash>(
    values: &[u8],
    size: usize,
    stride: Stride,
    count: usize,
    entries: &mut [u8],
)
    requires short { size ≤ parts_limit }
    requires few { (j : ℕ) → j < count → stride.first + j * stride.step < 2 ^ 32 }
    requires inside { (j : ℕ) → j < count → (stride.first + j * stride.step) * size + size ≤ length values.now }
    requires room { digest_len * count ≤ length entries.old }
    ensures { (j : ℕ) → j < count → slot j entries.new ≡ value_leaf H.meaning size values.now (stride.first + j * stride.step) }
{
    // By index: of a loop over a buffer's mutable chunks no proof sees what the buffer holds. There is room for
    // each entry, so none is refused.
    for j in 0..count {
        let n = stride.first + j * stride.step;
        let _ = put_entry(entries, j, &leaf::<H>(values, size, n));
    }
}
