// Sums of shares by coefficients, share by share: from the coefficients' highest bit down, the sum so far is doubled, and the
// shares whose coefficient has the bit are added. That is eight doublings for any number of shares. Shares are bytes and a size:
// there are as many as the row has coefficients, and a struct of them would say so a second time.
ghost use Rattle.std.specs.Prelude.{◌≡◌, ℕ, ◌+◌, ◌*◌, ◌/◌, ◌%◌, ◌^◌, ◌<◌, ◌≤◌, length, bit_xor, slice_index};
ghost use Rattle.octets.specs.Shares.{byte_of};
ghost use Rattle.codes.specs.Code.{applied};
ghost use Rattle.codes.specs.Words.{at};
ghost use Rattle.erasure.specs.Rows.{row_fits};

use crate::calls::holds;

// Adds the parts of the shares whose coefficient has this bit.
fn add_selected(row: &[u8], bit: usize, shares: &[u8], size: usize, from: usize, sum: &mut [u8])
    requires { (bit < 8) × ((length shares.now ≡ length row.now * size) × (from + length sum.old ≤ size)) }
    ensures { (b : ℕ) → b < length sum.old → slice_index sum.new b ≡ bit_xor (slice_index sum.old b) (applied (length row.now) (λ j. at row.now j / 2 ^ bit % 2) (λ j. byte_of size j (from + b) shares.now)) }
{
    // Shares by their number: they may have no bytes, which `chunks_exact` does not take.
    for (j, coefficient) in row.iter().enumerate() {
        if (*coefficient >> bit) % 2 == 1 {
            galois::bulk::add_share(sum, &shares[j * size + from..j * size + size]);
        }
    }
}

// Whether a row of k coefficients goes with `len` bytes of shares, each of which has n bytes from place `from` on.
pub(crate) fn row_fits(k: usize, len: usize, size: usize, from: usize, n: usize) -> bool
    ensures { result ≡ row_fits k len size from n }
{
    if k == 0 || from > size || n > size - from {
        return false;
    }
    holds(k, size, len)
}

// The sum of the shares, each times its coefficient of the row: of their bytes at `from` and on, as many as `sum` has.
pub(crate) fn combine(row: &[u8], shares: &[u8], size: usize, from: usize, sum: &mut [u8])
    requires { (length shares.now ≡ length row.now * size) × (from + length sum.old ≤ size) }
    ensures { (b : ℕ) → b < length sum.old → slice_index sum.new b ≡ applied (length row.now) (at row.now) (λ j. byte_of size j (from + b) shares.now) }
{
    sum.fill(0);
    for bit in (0..8).rev() {
        galois::bulk::double_share(sum);
        add_selected(row, bit, shares, size, from, sum);
    }
}

// Each of the n shares of out is the sum of the shares by that row of the table, which has k columns.
pub(crate) fn apply_rows(rows: &[u8], n: usize, k: usize, s: usize, shares: &[u8], out: &mut [u8])
    requires { (length rows.now ≡ n * k) × ((length shares.now ≡ k * s) × (length out.old ≡ n * s)) }
    ensures { (i : ℕ) → i < n → (b : ℕ) → b < s → byte_of s i b out.new ≡ applied k (λ j. byte_of k i j rows.now) (λ j. byte_of s j b shares.now) }
{
    // By number: of what is written through `chunks_exact_mut` a proof knows nothing.
    for i in 0..n {
        combine(
            &rows[i * k..i * k + k],
            shares,
            s,
            0,
            &mut out[i * s..i * s + s],
        );
    }
}
