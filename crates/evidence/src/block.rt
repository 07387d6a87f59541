// A block whose square and roots are at hand.
ghost use Rattle.std.specs.Prelude.{◌≡◌, length, IfOk};
ghost use Rattle.std.specs.Result.{is_ok};
ghost use Rattle.commitment.specs.Roots.{square_fits};
ghost use Rattle.header.specs.Fields.{fields_of};
ghost use Rattle.header.specs.Sizes.{roots_len};

use commitment::cells::Cells;
use header::header::Header;
use octets::misfit::Misfit;

// A square and roots of the lengths that their block's have.
#[derive(Clone, Copy)]
pub(crate) struct Block<'a> {
    pub(crate) cells: Cells<'a>,
    pub(crate) roots: &'a [u8],
    ghost rooted: { length roots.now ≡ roots_len (fields_of cells.header.now) },
}

impl<'a> Block<'a> {
    pub(crate) fn of(h: &'a Header, square: &'a [u8], roots: &'a [u8]) -> Result<Block<'a>, Misfit>
        ensures answer { is_ok result ≡ square_fits (fields_of h.now) (length square.now) (length roots.now) }
        ensures block { IfOk result (λ b. (b.cells.header.now ≡ h.now) × ((b.cells.shares.now ≡ square.now) × (b.roots.now ≡ roots.now))) }
    {
        let cells = Cells::of(h, square)?;
        if roots.len() != cells.lengths.roots {
            return Err(Misfit);
        }
        Ok(Block { cells, roots })
    }
}
