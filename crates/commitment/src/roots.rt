// The roots of a square's lines.
ghost use Rattle.std.specs.Prelude.{◌≡◌, ◌+◌, ◌*◌, ◌≤◌, ◌==◌, length, if◌then◌else◌};
ghost use Rattle.std.specs.Result.{is_ok};
ghost use Rattle.commitment.specs.Roots.{roots_of, square_fits, square_roots};
ghost use Rattle.hash.specs.Digests.{digest_len};
ghost use Rattle.header.specs.Fields.{fields_of};
ghost use Rattle.header.specs.Sizes.{roots_len};

use crate::cells::Cells;
use hash::digest::Hash;
use hash::limits::DIGEST_LEN;
use header::header::Header;
use octets::misfit::Misfit;

// A row of digests for each level of the deepest tree of a column: 7 of 64. The library allocates nothing, so a smaller square takes
// the front of as much. Rows are bytes, as the roots that the first of them is copied to.
const WORK_ROOM: usize = 14336;

impl Cells<'_> {
    // Writes the roots of all lines; `work` has a row of digests for each level of a column's tree.
    fn put_roots<H: Hash>(&self, work: &mut [u8], roots: &mut [u8])
        requires { (digest_len * (self.now.lengths.width * self.now.lengths.depth + self.now.lengths.width) ≤ length work.old) × (length roots.old ≡ digest_len * (2 * self.now.lengths.width)) }
        ensures { roots.new ≡ square_roots H.meaning self.now.lengths.width self.now.lengths.depth self.now.lengths.share self.now.shares.now }
    {
        let row = DIGEST_LEN * self.lengths.width;
        self.fold::<H>(self.lengths.depth, 0, work, roots);
        roots[row..].copy_from_slice(&work[..row]);
    }

    // Writes the roots of all lines, rows first. Where the buffer has not their length, it refuses and writes nothing.
    pub fn roots<H: Hash>(&self, roots: &mut [u8]) -> Result<(), Misfit>
        ensures answer { is_ok result ≡ (length roots.old == roots_len (fields_of self.now.header.now)) }
        ensures written { roots.new ≡ (if length roots.old == roots_len (fields_of self.now.header.now) then roots_of H.meaning (fields_of self.now.header.now) self.now.shares.now else roots.old) }
    {
        if roots.len() != self.lengths.roots {
            return Err(Misfit);
        }
        let mut work = [0u8; WORK_ROOM];
        self.put_roots::<H>(&mut work, roots);
        Ok(())
    }
}

// Writes the roots of all lines of a square, rows first. Where the lengths are not those of the header's block, it refuses and
// writes nothing.
pub fn square_roots<H: Hash>(h: &Header, square: &[u8], roots: &mut [u8]) -> Result<(), Misfit>
    ensures answer { is_ok result ≡ square_fits (fields_of h.now) (length square.now) (length roots.old) }
    ensures written { roots.new ≡ (if square_fits (fields_of h.now) (length square.now) (length roots.old) then roots_of H.meaning (fields_of h.now) square.now else roots.old) }
{
    Cells::of(h, square)?.roots::<H>(roots)
}
