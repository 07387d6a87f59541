// The cells of a block's square.
ghost use Rattle.std.specs.Prelude.{◌≡◌, ◌==◌, length, IfOk};
ghost use Rattle.std.specs.Result.{is_ok};
ghost use Rattle.header.specs.Fields.{fields_of};
ghost use Rattle.header.specs.Sizes.{lengths_of, square_len};

use header::header::Header;
use header::lengths::Lengths;
use octets::misfit::Misfit;

// A square that has the length of its block's.
#[derive(Clone, Copy)]
pub struct Cells<'a> {
    pub header: &'a Header,
    // Those that the header gives.
    pub lengths: Lengths,
    // The shares of the cells, row by row.
    pub shares: &'a [u8],
    pub ghost measured: { lengths ≡ lengths_of (fields_of header.now) },
    pub ghost whole: { length shares.now ≡ square_len (fields_of header.now) },
}

impl<'a> Cells<'a> {
    // The cells of a block's square; refused where the square has not the block's length.
    pub fn of(header: &'a Header, shares: &'a [u8]) -> Result<Cells<'a>, Misfit>
        ensures answer { is_ok result ≡ (length shares.now == square_len (fields_of header.now)) }
        ensures cells { IfOk result (λ c. (c.header.now ≡ header.now) × (c.shares.now ≡ shares.now)) }
    {
        let lengths = header.lengths();
        if shares.len() != lengths.square {
            return Err(Misfit);
        }
        Ok(Cells {
            header,
            lengths,
            shares,
        })
    }
}
