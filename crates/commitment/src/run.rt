// Runs of values of one size.
ghost use Rattle.std.specs.Prelude.{◌≡◌, ◌*◌, ◌^◌, ◌≤◌, length, IfOk};
ghost use Rattle.std.specs.Result.{is_ok};
ghost use Rattle.commitment.specs.Values.{values_fit};
ghost use Rattle.hash.specs.Digests.{parts_limit};
ghost use Rattle.layout.specs.Answers.{depth_limit};

use hash::limits::PARTS_LIMIT;
use layout::size::{DEPTH_LIMIT, leaves};
use octets::misfit::Misfit;

// 2^depth values of `size` bytes, one after the other: the leaves' values of a tree of that depth.
#[derive(Clone, Copy)]
pub(crate) struct Run<'a> {
    pub(crate) values: &'a [u8],
    pub(crate) size: usize,
    pub(crate) depth: usize,
    ghost hashed: { size ≤ parts_limit },
    ghost deep: { depth ≤ depth_limit },
    ghost whole: { length values.now ≡ 2 ^ depth * size },
}

impl<'a> Run<'a> {
    // Refused where no tree is so deep, no leaf's value so long, or the bytes are not those of so many values.
    pub(crate) fn of(values: &'a [u8], size: usize, depth: usize) -> Result<Run<'a>, Misfit>
        ensures answer { is_ok result ≡ values_fit depth size (length values.now) }
        ensures run { IfOk result (λ r. (r.values.now ≡ values.now) × ((r.size ≡ size) × (r.depth ≡ depth))) }
    {
        if depth > DEPTH_LIMIT || size > PARTS_LIMIT || values.len() != leaves(depth) * size {
            return Err(Misfit);
        }
        Ok(Run {
            values,
            size,
            depth,
        })
    }
}
