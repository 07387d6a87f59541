// The witnesses' shares beside those of the square.
ghost use Rattle.std.specs.Prelude.{◌≡◌, ◌<◌, IfSome};
ghost use Rattle.evidence.specs.Paths.{cell_share};
ghost use Rattle.extraction.specs.Extracted.{Sound, agrees, first_against};
ghost use Rattle.fraud.specs.Charge.{block_of, case_in};
ghost use Rattle.fraudproof.specs.Witness.{some_values, values_of};
ghost use Rattle.header.specs.Sizes.{width};

use crate::comparison::Comparison;
use fraudproof::witness::Witness;
use header::cell::Cell;

impl<'a> Comparison<'a> {
    // The square's share of a cell.
    pub(crate) fn cell_share(&self, cell: Cell) -> &'a [u8]
        requires { (cell.row < width (block_of self.now.charge)) × (cell.col < width (block_of self.now.charge)) }
        ensures { result.now ≡ cell_share (block_of self.now.charge) self.now.square.now cell.row cell.col }
    {
        let Some(number) = self.charge.header.cell_number(cell) else {
            unreachable()
        };
        let size = self.charge.header.s as usize;
        &self.square[number * size..number * size + size]
    }

    // Whether a witness has the square's share.
    fn has_share(&self, w: &Witness) -> bool
        requires { w.now.place < width (block_of self.now.charge) }
        ensures { result ≡ agrees (block_of self.now.charge) self.now.square.now (case_in self.now.charge).claim (values_of w.now) }
    {
        w.share == self.cell_share(self.charge.proof.cell_of(w))
    }

    // The first witness whose share is not the square's.
    pub(crate) fn first_against(&self) -> Option<Witness<'a>>
        ensures value { some_values result ≡ first_against (agrees (block_of self.now.charge) self.now.square.now (case_in self.now.charge).claim) (case_in self.now.charge).witnesses }
        ensures sound { IfSome result (λ w. Sound (block_of self.now.charge) (values_of w)) }
    {
        // `has_share` asks that the place is on the line: the loop knows it at each turn, `find` would want it shown of all turns before.
        for w in self.charge.witnesses() {
            if !self.has_share(&w) {
                return Some(w);
            }
        }
        None
    }
}
