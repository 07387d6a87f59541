// Whether a square can be filled.
ghost use Rattle.extension.specs.Square.{fill_fits};
ghost use Rattle.std.specs.Prelude.{◌≡◌};

use erasure::limits::{ok_size, ok_width};

// Whether k and s are allowed, and n and m bytes are the data and the square.
pub(crate) fn fill_fits(k: usize, s: usize, n: usize, m: usize) -> bool
    ensures { result ≡ fill_fits k s n m }
{
    if !ok_width(k) {
        return false;
    }
    if !ok_size(s) {
        return false;
    }
    n == k * k * s && m == 2 * k * (2 * k) * s
}
