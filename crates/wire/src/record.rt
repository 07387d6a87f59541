// A record as parts of the bytes that it was read from.
ghost use Rattle.std.specs.Prelude.{◌≡◌};
ghost use Rattle.header.specs.Fields.{fields_of};
ghost use Rattle.wire.specs.Parts.{value_of};
ghost use Rattle.wire.specs.Values.{header};

use header::header::Header;

// Numbers stand as they are, and an axis stays a byte, since a writer has to refuse one over 1; shares, paths and roots are lent.
#[derive(Clone, Copy)]
pub enum Record<'a> {
    Header {
        k: u16,
        s: u16,
        hash_kind: u8,
        code_kind: u8,
        data_root: &'a [u8],
    },
    // The roots of the rows and then of the columns.
    Roots(&'a [u8]),
    // The line along which the shares up to the group's end are proved; axis 0 is a row, 1 a column.
    Group {
        axis: u8,
        index: u16,
    },
    // The share at a place of the group's line, with its path.
    Share {
        place: u16,
        share: &'a [u8],
        path: &'a [u8],
    },
    GroupEnd,
    // A line, the root claimed for it, and that root's path in the data tree.
    Claim {
        axis: u8,
        index: u16,
        root: &'a [u8],
        path: &'a [u8],
    },
    // The share at a place of the claimed line, with its own proving axis and its path.
    Witness {
        place: u16,
        axis: u8,
        share: &'a [u8],
        path: &'a [u8],
    },
}

// The header record of a header.
impl<'a> From<&'a Header> for Record<'a> {
    ghost from_gives = { λ h made. value_of made ≡ header (fields_of h.now) };

    fn from(h: &'a Header) -> Record<'a> {
        Record::Header {
            k: h.k,
            s: h.s,
            hash_kind: h.hash_kind,
            code_kind: h.code_kind,
            data_root: &h.data_root,
        }
    }
}
