// Block files that are refused, each with the number and the byte place that are expected, and some that open. The records of this
// block have 44, 262, 9, 169 and 6 bytes: header, roots, group, share and group end.
use crate::block::Block;
use crate::pieces::{Piece, file_of};
use blockfile::file::BlockFile;
use blockfile::open::open_file;
use blockfile::refusal::FileRefusal;
use erasure::kinds::Polynomial;
use header::cell::Axis::{Column, Row};
use header::cell::Cell;
use sha256::digest::Sha256;
use square::extend::extend;
use std::alloc::Global;
use std::process::Abort;
use std::test::*;

// How opening ends: the file opens, or it is refused by a number and a byte place.
type End = Result<(), (u8, Option<usize>)>;

const OPENS: End = Ok(());

fn told(refusal: FileRefusal) -> (u8, Option<usize>) {
    match refusal {
        FileRefusal::TooLong => (6, None),
        FileRefusal::Read(e) => (e.fault.number(), Some(e.at)),
        FileRefusal::SeenTwice { at } => (12, Some(at)),
    }
}

fn end_of(bytes: &[u8]) -> End {
    open_file(&mut BlockFile::empty(), bytes).map_err(told)
}

#[derive(Drop)]
struct Bench {
    heap: Global,
    block: Block,
}

impl Bench {
    // Opens the file of these pieces.
    fn expect(&self, rt: &impl Abort, pieces: &[Piece], end: End) -> Result<(), Fail> {
        let file = file_of(self.heap, &self.block, pieces)?;
        assert_eq!(rt; end_of(file.as_slice()), end);
        Ok(())
    }

    // Opens a file of a header and roots, which end at byte 306, and these bytes.
    fn behind(&self, rt: &impl Abort, bytes: &[u8], end: End) -> Result<(), Fail> {
        let pieces = [Piece::Header, Piece::Roots];
        let mut file = file_of(self.heap, &self.block, &pieces)?;
        file.extend_from_slice(bytes)?;
        assert_eq!(rt; end_of(file.as_slice()), end);
        Ok(())
    }

    // A file with one share in one group, in which one byte is changed.
    fn changed(&self, rt: &impl Abort, at: usize, byte: u8, end: End) -> Result<(), Fail> {
        let pieces = [
            Piece::Header,
            Piece::Roots,
            Piece::Group(Row, 0),
            Piece::Share(Row, Cell { row: 0, col: 0 }),
            Piece::End,
        ];
        let mut file = file_of(self.heap, &self.block, &pieces)?;
        let Some(place) = file.get_mut(at) else {
            return Err(Fail::new("no such byte"));
        };
        *place = byte;
        assert_eq!(rt; end_of(file.as_slice()), end, "a byte was changed");
        Ok(())
    }
}

// Something is due where the bytes end.
fn lacking(rt: &impl Abort, b: &Bench) -> Result<(), Fail> {
    b.expect(rt, &[], Err((10, Some(0))))?;
    b.expect(rt, &[Piece::Header], Err((10, Some(44))))?;
    b.expect(rt, &[Piece::Header, Piece::Roots], OPENS)?;
    b.expect(
        rt,
        &[
            Piece::Header,
            Piece::Roots,
            Piece::Group(Row, 0),
            Piece::Share(Row, Cell { row: 0, col: 0 }),
        ],
        Err((10, Some(484))),
    )
}

// A record that does not belong where it stands.
fn not_due(rt: &impl Abort, b: &Bench) -> Result<(), Fail> {
    b.expect(rt, &[Piece::Roots], Err((10, Some(0))))?;
    b.expect(rt, &[Piece::Header, Piece::Header], Err((10, Some(44))))?;
    b.expect(
        rt,
        &[Piece::Header, Piece::Roots, Piece::End],
        Err((10, Some(306))),
    )?;
    b.expect(
        rt,
        &[Piece::Header, Piece::Roots, Piece::Claim],
        Err((10, Some(306))),
    )?;
    b.expect(
        rt,
        &[
            Piece::Header,
            Piece::Roots,
            Piece::Group(Row, 0),
            Piece::Claim,
        ],
        Err((10, Some(315))),
    )?;
    b.expect(
        rt,
        &[
            Piece::Header,
            Piece::Roots,
            Piece::Group(Row, 0),
            Piece::Share(Row, Cell { row: 0, col: 0 }),
            Piece::Group(Row, 1),
        ],
        Err((10, Some(484))),
    )?;
    b.expect(
        rt,
        &[
            Piece::Header,
            Piece::Roots,
            Piece::Group(Row, 0),
            Piece::End,
            Piece::Share(Row, Cell { row: 0, col: 0 }),
        ],
        Err((10, Some(321))),
    )
}

// Heads behind the roots: lengths of 0 and 0xFFFFFFFF, unknown kinds, and bytes too many.
fn heads(rt: &impl Abort, b: &Bench) -> Result<(), Fail> {
    b.behind(rt, &[0, 0, 0, 0, 3, 0], Err((9, Some(306))))?;
    b.behind(rt, &[0xff, 0xff, 0xff, 0xff, 3, 0], Err((7, Some(306))))?;
    b.behind(rt, &[0xff, 0xff, 0xff, 0xff, 0, 0], Err((7, Some(306))))?;
    b.behind(rt, &[0, 0, 0, 0, 0, 0], Err((8, Some(306))))?;
    b.behind(rt, &[0, 0, 0, 0, 6, 0], Err((8, Some(306))))?;
    b.behind(rt, &[0, 0, 0, 0, 7, 0], Err((8, Some(306))))?;
    b.behind(rt, &[0, 0, 0, 0, 0xff, 0xff], Err((8, Some(306))))?;
    b.behind(rt, &[0, 0, 0, 0, 4, 0], Err((10, Some(306))))?;
    b.behind(
        rt,
        &[3, 0, 0, 0, 3, 0, 0, 0, 0, 0, 0, 0, 0, 3, 0],
        Err((10, Some(315))),
    )?;
    b.behind(rt, &[0], Err((7, Some(306))))?;
    b.behind(rt, &[0; 2], Err((7, Some(306))))?;
    b.behind(rt, &[0; 3], Err((7, Some(306))))?;
    b.behind(rt, &[0; 4], Err((7, Some(306))))?;
    b.behind(rt, &[0; 5], Err((7, Some(306))))
}

// One byte of a good file changed: lengths and values.
fn values(rt: &impl Abort, b: &Bench) -> Result<(), Fail> {
    b.changed(rt, 6, 3, Err((11, Some(0))))?;
    b.changed(rt, 8, 0, Err((11, Some(0))))?;
    b.changed(rt, 9, 2, Err((11, Some(0))))?;
    b.changed(rt, 10, 99, OPENS)?;
    b.changed(rt, 0, 37, Err((9, Some(0))))?;
    b.changed(rt, 44, 1, Err((9, Some(44))))?;
    b.changed(rt, 312, 1, OPENS)?;
    b.changed(rt, 312, 2, Err((11, Some(306))))?;
    b.changed(rt, 313, 4, Err((11, Some(306))))?;
    b.changed(rt, 314, 1, Err((11, Some(306))))?;
    b.changed(rt, 315, 0xa2, Err((9, Some(315))))?;
    b.changed(rt, 321, 3, OPENS)?;
    b.changed(rt, 321, 4, Err((11, Some(315))))?;
    b.changed(rt, 322, 1, Err((11, Some(315))))
}

// A cell that comes twice, and groups that may come in any way.
fn cells(rt: &impl Abort, b: &Bench) -> Result<(), Fail> {
    b.expect(
        rt,
        &[
            Piece::Header,
            Piece::Roots,
            Piece::Group(Row, 1),
            Piece::Share(Row, Cell { row: 1, col: 2 }),
            Piece::End,
            Piece::Group(Column, 2),
            Piece::Share(Column, Cell { row: 1, col: 2 }),
            Piece::End,
        ],
        Err((12, Some(499))),
    )?;
    b.expect(
        rt,
        &[
            Piece::Header,
            Piece::Roots,
            Piece::Group(Row, 1),
            Piece::Share(Row, Cell { row: 1, col: 2 }),
            Piece::Share(Row, Cell { row: 1, col: 2 }),
        ],
        Err((12, Some(484))),
    )?;
    b.expect(
        rt,
        &[
            Piece::Header,
            Piece::Roots,
            Piece::Group(Column, 3),
            Piece::Share(Column, Cell { row: 2, col: 3 }),
            Piece::Share(Column, Cell { row: 0, col: 3 }),
            Piece::End,
            Piece::Group(Row, 3),
            Piece::End,
            Piece::Group(Row, 3),
            Piece::Share(Row, Cell { row: 3, col: 3 }),
            Piece::End,
        ],
        OPENS,
    )
}

// Where the records of the file in `prefixes` end, and how the bytes up to there end.
const RECORDS: [(usize, End); 9] = [
    (44, Err((10, Some(44)))),
    (306, OPENS),
    (315, Err((10, Some(315)))),
    (484, Err((10, Some(484)))),
    (653, Err((10, Some(653)))),
    (659, OPENS),
    (668, Err((10, Some(668)))),
    (837, Err((10, Some(837)))),
    (843, OPENS),
];

// How the first n bytes of that file end: as the whole records do, or at the place of the record that is cut.
fn prefix_end(n: usize) -> End {
    let mut at = 0;
    let mut whole = Err((10, Some(0)));
    for (end, whole_to_here) in RECORDS {
        if n < end {
            return if n == at { whole } else { Err((7, Some(at))) };
        }
        at = end;
        whole = whole_to_here;
    }
    whole
}

fn prefixes(rt: &impl Abort, b: &Bench) -> Result<(), Fail> {
    let pieces = [
        Piece::Header,
        Piece::Roots,
        Piece::Group(Row, 1),
        Piece::Share(Row, Cell { row: 1, col: 0 }),
        Piece::Share(Row, Cell { row: 1, col: 3 }),
        Piece::End,
        Piece::Group(Column, 2),
        Piece::Share(Column, Cell { row: 0, col: 2 }),
        Piece::End,
    ];
    let file = file_of(b.heap, &b.block, &pieces)?;
    assert_eq!(rt; file.len(), 843);
    for n in 0..=file.len() {
        assert_eq!(rt; end_of(&file.as_slice()[..n]), prefix_end(n));
    }
    Ok(())
}

// The block of rows 1 2 and 3 4, extended.
fn extended() -> Result<Block, Fail> {
    let mut square = [0u8; 16];
    let mut roots = [0u8; 256];
    let header = extend::<Sha256, Polynomial>(2, 1, &[1, 2, 3, 4], &mut square, &mut roots)?;
    Ok(Block {
        header,
        square,
        roots,
    })
}

#[test]
fn bad_files(rt: HostRuntime) -> Result<(), Fail> {
    let b = Bench {
        heap: rt.alloc(),
        block: extended()?,
    };
    lacking(&rt, &b)?;
    not_due(&rt, &b)?;
    heads(&rt, &b)?;
    values(&rt, &b)?;
    cells(&rt, &b)?;
    prefixes(&rt, &b)?;
    let long = vec![in b.heap; 0u8; 4194305]?;
    assert_eq!(rt; end_of(long.as_slice()), Err((6, None)));
    Ok(())
}
