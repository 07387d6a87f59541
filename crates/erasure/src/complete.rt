// Encoding in place: a buffer that begins with the data becomes their codeword.
ghost use Rattle.std.specs.Prelude.{◌≡◌, ℕ, ◌+◌, ◌*◌, ◌/◌, ◌%◌, ◌<◌, ◌≤◌, length, take, if◌then◌else◌};
ghost use Rattle.octets.specs.Shares.{byte_of};
ghost use Rattle.codes.specs.Code.{applied};
ghost use Rattle.codes.specs.Words.{codeword};
ghost use Rattle.erasure.specs.Calls.{complete_fits};
ghost use Rattle.erasure.specs.Limits.{ok_width};
ghost use Rattle.std.specs.Result.{is_ok};

use crate::code::Code;
use crate::combine::combine;
use crate::limits::ok_width;
use crate::table::{TABLE_ROOM, code_rows};
use octets::misfit::Misfit;

// Whether k shares can be encoded in place, and n bytes are 2k shares of w cells of s bytes.
fn complete_fits(k: usize, w: usize, s: usize, n: usize) -> bool
    ensures { result ≡ complete_fits k w s n }
{
    if !ok_width(k) {
        return false;
    }
    1 <= w && w <= 64 && s <= 512 && n == 2 * k * (w * s)
}

// Each share behind the data becomes the sum of those in front by its row of the table, which has k columns. Shares are worked out cell by
// cell, so that what is added up stays near at hand.
fn apply_behind(rows: &[u8], k: usize, w: usize, s: usize, front: &[u8], behind: &mut [u8])
    requires small { (k < 33) × ((0 < w) × ((w ≤ 64) × (s ≤ 512))) }
    requires long { (length rows.now ≡ k * k) × ((length front.now ≡ k * (w * s)) × (length behind.old ≡ k * w * s)) }
    ensures { (m : ℕ) → m < k * w → (b : ℕ) → b < s → byte_of s m b behind.new ≡ applied k (λ j. byte_of k (m / w) j rows.now) (λ j. byte_of s (j * w + m % w) b front.now) }
{
    // By number: of what is written through `chunks_exact_mut` a proof knows nothing.
    for m in 0..k * w {
        let i = m / w;
        let row = &rows[i * k..i * k + k];
        combine(row, front, w * s, m % w * s, &mut behind[m * s..m * s + s]);
    }
}

// Completes a codeword of shares of w cells of s bytes, at most 64 of at most 512 bytes, as the lines of a square are: its first k
// shares stay, and the others are worked out from them. Where k, w, s or the length is wrong, the buffer is as it was.
pub fn complete<C: Code>(k: usize, w: usize, s: usize, word: &mut [u8]) -> Result<(), Misfit>
    ensures answer { is_ok result ≡ complete_fits k w s (length word.old) }
    ensures whole { word.new ≡ (if complete_fits k w s (length word.old) then codeword C.Code.table k (w * s) (take (k * (w * s)) word.old) else word.old) }
{
    if !complete_fits(k, w, s, word.len()) {
        return Err(Misfit);
    }
    let mut space = [0u8; TABLE_ROOM];
    let rows = code_rows::<C>(k, &mut space);
    let (front, behind) = word.split_at_mut(word.len() / 2);
    apply_behind(&rows[k * k..], k, w, s, front, behind);
    Ok(())
}
