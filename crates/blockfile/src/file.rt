// An opened block file.
ghost use Rattle.blockfile.specs.Index.{Within};
ghost use Rattle.header.specs.Fields.{fields_of};
ghost use Rattle.std.specs.Prelude.{length};

use crate::index::Index;
use header::header::Header;

// The file's bytes are lent; the index names share records that lie inside them.
#[derive(Clone, Copy)]
pub struct BlockFile<'a> {
    pub(crate) header: Header,
    pub(crate) roots: &'a [u8],
    pub(crate) bytes: &'a [u8],
    pub(crate) index: Index,
    ghost within: { Within (fields_of header) (length bytes.now) index.at },
}
