// The two climbs from a witness's cell.
ghost use Rattle.std.specs.Prelude.{◌≡◌, ◌<◌, length};
ghost use Rattle.collisions.specs.Finding.{Finds};
ghost use Rattle.evidence.specs.Evidence.{evidence_rungs};
ghost use Rattle.evidence.specs.Paths.{cell_share, evidence_path};
ghost use Rattle.extraction.specs.Extracted.{Sound, own_share};
ghost use Rattle.fraud.specs.Accepted.{witness_col, witness_row};
ghost use Rattle.fraud.specs.Charge.{block_of, case_in};
ghost use Rattle.fraudproof.specs.Witness.{values_of};
ghost use Rattle.header.specs.Lines.{axis_by};
ghost use Rattle.header.specs.Sizes.{path_len, width};

use crate::comparison::Comparison;
use crate::lengths::STRING_LEN;
use collisions::branch::{Branch, Pair};
use collisions::find::find_collision_through;
use evidence::write::evidence_of;
use fraudproof::witness::Witness;
use hash::digest::Hash;
use header::cell::{Axis, Cell};
use header::lengths::PATH_ROOM;

impl Comparison<'_> {
    // Compares the climb of a share by a path with the square's own climb, from a cell along an axis; the square's path is written to
    // `own`.
    fn compare_evidence<H: Hash>(
        &self,
        cell: Cell,
        axis: Axis,
        shown: Branch<'_>,
        own: &mut [u8],
        string_a: &mut [u8; STRING_LEN],
        string_b: &mut [u8; STRING_LEN],
    ) -> Option<usize>
        requires kinds { self.now.charge.header.now.hash_kind ≡ H.KIND }
        requires cell { (cell.row < width (block_of self.now.charge)) × (cell.col < width (block_of self.now.charge)) }
        requires paths { (length shown.value.now ≡ self.now.charge.header.now.s) × ((length shown.path.now ≡ path_len (block_of self.now.charge)) × (length own.old ≡ path_len (block_of self.now.charge))) }
        ensures { Finds H.meaning (evidence_rungs (block_of self.now.charge) axis cell.row cell.col shown.entry.path.now) (evidence_rungs (block_of self.now.charge) axis cell.row cell.col (evidence_path H.meaning (block_of self.now.charge) self.now.square.now self.now.roots.now axis cell.row cell.col)) shown.entry.value.now (cell_share (block_of self.now.charge) self.now.square.now cell.row cell.col) result string_a.old string_b.old string_a.new string_b.new }
    {
        let h = self.charge.header;
        let depth = h.lengths().depth;
        let _ = evidence_of::<H>(h, self.square, self.roots, cell, axis, own);
        // The lengths fit, so that it is never refused.
        find_collision_through::<H>(
            shown,
            Branch {
                value: self.cell_share(cell),
                path: own,
            },
            depth,
            cell.place(axis) as usize,
            h.line_number(axis, cell.line(axis)),
            Pair {
                a: string_a,
                b: string_b,
            },
        )
        .unwrap_or(None)
    }

    // Compares the climb of a witness with the square's own climb from the witness's cell, along the witness's axis.
    pub(crate) fn collide_at_witness<H: Hash>(
        &self,
        w: &Witness,
        string_a: &mut [u8; STRING_LEN],
        string_b: &mut [u8; STRING_LEN],
    ) -> Option<usize>
        requires kinds { self.now.charge.header.now.hash_kind ≡ H.KIND }
        requires sound { Sound (block_of self.now.charge) (values_of w.now) }
        ensures { let row = witness_row (case_in self.now.charge).claim (values_of w.now) in let col = witness_col (case_in self.now.charge).claim (values_of w.now) in Finds H.meaning (evidence_rungs (block_of self.now.charge) (axis_by w.now.axis) row col w.now.path.now) (evidence_rungs (block_of self.now.charge) (axis_by w.now.axis) row col (evidence_path H.meaning (block_of self.now.charge) self.now.square.now self.now.roots.now (axis_by w.now.axis) row col)) w.now.share.now (own_share (block_of self.now.charge) self.now.square.now (case_in self.now.charge).claim (values_of w.now)) result string_a.old string_b.old string_a.new string_b.new }
    {
        let len = self.charge.header.lengths().path;
        let mut own = [0u8; PATH_ROOM];
        let shown = Branch {
            value: w.share,
            path: w.path,
        };
        self.compare_evidence::<H>(
            self.charge.proof.cell_of(w),
            w.axis(),
            shown,
            &mut own[0..len],
            string_a,
            string_b,
        )
    }
}
