// Encoding and recovery. An encoding has the data at the first k places and works out the rest; a recovery writes the one codeword
// that has given shares at given places. Numbers and plain bytes are passed, since the C interface calls with these.
ghost use Rattle.std.specs.Prelude.{◌≡◌, ◌*◌, ◌<◌, true, length, drop, if◌then◌else◌, Ok, Err, ◌==◌};
ghost use Rattle.octets.specs.Outcome.{Refused, outcome};
ghost use Rattle.octets.specs.Written.{written};
ghost use Rattle.codes.specs.Words.{Through, codeword};
ghost use Rattle.erasure.specs.Calls.{GivesBack, NoOther, encode_outcome, fitting, parity_fits, recover_outcome};
ghost use Rattle.erasure.specs.Limits.{ok_width};
ghost use Rattle.erasure.specs.Places.{rising_below};
ghost use Rattle.erasure.specs.Refusals.{told};
ghost use Rattle.std.specs.Result.{is_ok};

use crate::code::Code;
use crate::combine::apply_rows;
use crate::limits::{ok_size, ok_width};
use crate::places::are_rising;
use crate::refusal::CodeRefusal;
use crate::table::{TABLE_ROOM, code_rows, weight_table};
use octets::misfit::Misfit;

// Whether buffers of n and m bytes hold k and 2k shares.
fn lengths_fit(k: usize, s: usize, n: usize, m: usize) -> bool
    requires { (k < 33) × (s < 513) }
    ensures { result ≡ fitting k s n m }
{
    n == k * s && m == 2 * k * s
}

// Writes the codeword through the shares at these places. `weights` looks at them once more, since anyone may call it with any.
fn fill_word<C: Code>(places: &[u16], s: usize, shares: &[u8], out: &mut [u8])
    requires { (ok_width (length places.now) ≡ true) × ((rising_below (2 * length places.now) places.now ≡ true) × ((s < 513) × ((length shares.now ≡ length places.now * s) × (length out.old ≡ 2 * length places.now * s)))) }
    ensures { Through C.Code.table (length places.now) s places.now shares.now out.new }
{
    let k = places.len();
    let mut space = [0u8; TABLE_ROOM];
    let rows = weight_table::<C>(places, &mut space);
    apply_rows(rows, 2 * k, k, s, shares, out);
}

// Whether n bytes are k shares of this size.
pub(crate) fn holds(k: usize, size: usize, n: usize) -> bool
    ensures { result ≡ (n == (k * size)) }
{
    k.checked_mul(size) == Some(n)
}

// Whether k shares can be encoded, and n and m bytes are k shares of this size each.
fn parity_fits(k: usize, size: usize, n: usize, m: usize) -> bool
    ensures { result ≡ parity_fits k size n m }
{
    if !ok_width(k) {
        return false;
    }
    holds(k, size, n) && holds(k, size, m)
}

// Encodes k shares of any size, and writes only the k shares behind the data. Where k or a length is wrong, out is as it was.
pub fn parity<C: Code>(k: usize, size: usize, shares: &[u8], out: &mut [u8]) -> Result<(), Misfit>
    ensures answer { is_ok result ≡ parity_fits k size (length shares.now) (length out.old) }
    ensures rest { out.new ≡ (if parity_fits k size (length shares.now) (length out.old) then drop (k * size) (codeword C.Code.table k size shares.now) else out.old) }
{
    if !parity_fits(k, size, shares.len(), out.len()) {
        return Err(Misfit);
    }
    let mut space = [0u8; TABLE_ROOM];
    let rows = code_rows::<C>(k, &mut space);
    apply_rows(&rows[k * k..], k, k, size, shares, out);
    Ok(())
}

// Encodes k shares of s bytes: out becomes their codeword.
pub fn encode<C: Code>(k: usize, s: usize, shares: &[u8], out: &mut [u8]) -> Result<(), CodeRefusal>
    ensures answer { outcome told result ≡ encode_outcome k s (length shares.now) (length out.old) }
    ensures word { out.new ≡ written (encode_outcome k s (length shares.now) (length out.old)) (codeword C.Code.table k s shares.now) out.old }
{
    if !ok_width(k) {
        return Err(CodeRefusal::WrongWidth);
    }
    if !ok_size(s) {
        return Err(CodeRefusal::WrongShareSize);
    }
    if !lengths_fit(k, s, shares.len(), out.len()) {
        return Err(CodeRefusal::WrongLength);
    }
    out[0..k * s].copy_from_slice(shares);
    parity::<C>(k, s, shares, &mut out[k * s..])?;
    Ok(())
}

// Recovers a codeword from k of its shares, of s bytes each, whose places are named: out becomes the codeword through them.
pub fn recover<C: Code>(
    k: usize,
    s: usize,
    places: &[u16],
    shares: &[u8],
    out: &mut [u8],
) -> Result<(), CodeRefusal>
    ensures answer { outcome told result ≡ recover_outcome k s places.now (length shares.now) (length out.old) }
    ensures refused { (e : Refused) → recover_outcome k s places.now (length shares.now) (length out.old) ≡ Err e → out.new ≡ out.old }
    ensures through { recover_outcome k s places.now (length shares.now) (length out.old) ≡ Ok tt → Through C.Code.table k s places.now shares.now out.new }
    ensures only { recover_outcome k s places.now (length shares.now) (length out.old) ≡ Ok tt → NoOther C.Code.table k s places.now shares.now out.new }
    ensures back { recover_outcome k s places.now (length shares.now) (length out.old) ≡ Ok tt → GivesBack C.Code.table k s places.now shares.now out.new }
{
    if !ok_width(k) {
        return Err(CodeRefusal::WrongWidth);
    }
    if !ok_size(s) {
        return Err(CodeRefusal::WrongShareSize);
    }
    if places.len() != k || !lengths_fit(k, s, shares.len(), out.len()) {
        return Err(CodeRefusal::WrongLength);
    }
    if !are_rising(places, 2 * k) {
        return Err(CodeRefusal::PlacesNotRising);
    }
    fill_word::<C>(places, s, shares, out);
    Ok(())
}
