// Filling the extended square by a code.
ghost use Rattle.std.specs.Prelude.{◌≡◌, ℕ, ◌*◌, ◌<◌, true, length, if◌then◌else◌, slice_index};
ghost use Rattle.octets.specs.Shares.{byte_of, share};
ghost use Rattle.codes.specs.Words.{codeword};
ghost use Rattle.erasure.specs.Limits.{ok_size, ok_width};
ghost use Rattle.std.specs.Result.{is_ok};
ghost use Rattle.extension.specs.Laws.{LinesCoded, LinesFromAny};
ghost use Rattle.extension.specs.Square.{extension, extension_by_columns, fill_fits, quadrant};

use crate::lengths::fill_fits;
use erasure::calls::encode;
use erasure::code::Code;
use erasure::complete::complete;
use octets::misfit::Misfit;

// Extends the k rows of the data: they become the first k rows of the square.
fn fill_rows<C: Code>(k: usize, s: usize, shares: &[u8], square: &mut [u8])
    requires { (ok_width k ≡ true) × ((ok_size s ≡ true) × ((length shares.now ≡ k * (k * s)) × (length square.old ≡ 2 * k * (2 * k * s)))) }
    ensures { (r : ℕ) → r < k → (x : ℕ) → x < 2 * k * s → byte_of (2 * k * s) r x square.new ≡ slice_index (codeword C.Code.table k s (share (k * s) r shares.now)) x }
{
    let row = k * s;
    let line = 2 * k * s;
    // By number: of what is written through `chunks_exact_mut` a proof knows nothing.
    for r in 0..k {
        let data = &shares[r * row..r * row + row];
        let Ok(()) = encode::<C>(k, s, data, &mut square[r * line..r * line + line]) else {
            unreachable()
        };
    }
}

// Fills the square of k by k shares of s bytes each, the data. Where k, s or a length is wrong, the square is as it was.
pub fn fill<C: Code>(k: usize, s: usize, shares: &[u8], square: &mut [u8]) -> Result<(), Misfit>
    ensures answer { is_ok result ≡ fill_fits k s (length shares.now) (length square.old) }
    ensures filled { square.new ≡ (if fill_fits k s (length shares.now) (length square.old) then extension C.Code.table k s shares.now else square.old) }
    ensures columns { fill_fits k s (length shares.now) (length square.old) ≡ true → square.new ≡ extension_by_columns C.Code.table k s shares.now }
    ensures lines { fill_fits k s (length shares.now) (length square.old) ≡ true → LinesCoded C.Code.table k s square.new }
    ensures through { fill_fits k s (length shares.now) (length square.old) ≡ true → LinesFromAny C.Code.table k s square.new }
    ensures front { fill_fits k s (length shares.now) (length square.old) ≡ true → quadrant k s square.new ≡ shares.now }
{
    if !fill_fits(k, s, shares.len(), square.len()) {
        return Err(Misfit);
    }
    fill_rows::<C>(k, s, shares, square);
    // The rows so far are k shares of one codeword, whose shares are rows: the others complete it.
    complete::<C>(k, 2 * k, s, square)
}
