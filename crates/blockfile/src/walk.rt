// The walk over the groups of a file.
ghost use Rattle.blockfile.specs.Steps.{LineLow};
ghost use Rattle.header.specs.Fields.{fields_of};

use crate::index::Index;
use crate::point::Point;
use header::header::Header;

// Where it has come to, and the shares that it has noted. The line of a group is one of the block.
#[derive(Clone, Copy)]
pub struct Walk {
    pub(crate) header: Header,
    pub(crate) point: Point,
    pub(crate) index: Index,
    ghost low: { LineLow (fields_of header) point },
}
