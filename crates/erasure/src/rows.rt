// One row of coefficients applied to shares of which each lies within a longer record.
ghost use Rattle.erasure.specs.Rows.{row_fits, row_sum};
ghost use Rattle.std.specs.Prelude.{◌≡◌, length, if◌then◌else◌};
ghost use Rattle.std.specs.Result.{is_ok};

use crate::combine::{combine, row_fits};
use octets::misfit::Misfit;

// Writes the sum of the parts of the shares, each times its coefficient of the row: of the bytes at `from` and on of each share of
// `size` bytes, as many as `sum` has. Where the lengths do not fit it writes nothing.
pub fn apply_row(
    row: &[u8],
    shares: &[u8],
    size: usize,
    from: usize,
    sum: &mut [u8],
) -> Result<(), Misfit>
    ensures answer { is_ok result ≡ row_fits (length row.now) (length shares.now) size from (length sum.old) }
    ensures written { sum.new ≡ (if row_fits (length row.now) (length shares.now) size from (length sum.old) then row_sum row.now size from (length sum.old) shares.now else sum.old) }
{
    if !row_fits(row.len(), shares.len(), size, from, sum.len()) {
        return Err(Misfit);
    }
    combine(row, shares, size, from, sum);
    Ok(())
}
