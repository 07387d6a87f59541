// Opening a block file.
ghost use Rattle.std.specs.Prelude.{◌≡◌, ◌+◌, ◌<◌, ◌≤◌, length, drop, Err, MatchResult, OnOk};
ghost use Rattle.blockfile.specs.File.{HeadRead, Means, Opens, RootsAre, groups_place, nothing, roots_place};
ghost use Rattle.blockfile.specs.Opening.{closed};
ghost use Rattle.blockfile.specs.Refusals.{told};
ghost use Rattle.blockfile.specs.Walk.{file_limit, file_outcome, no_block};
ghost use Rattle.octets.specs.Outcome.{outcome};
ghost use Rattle.header.specs.Fields.{fields_of};
ghost use Rattle.wire.specs.Reading.{reads_at};
ghost use Rattle.wire.specs.declared.due.Due.TheVariants.{Roots};

use crate::file::BlockFile;
use crate::index::Index;
use crate::refusal::{FileRefusal, refused};
use crate::walk::Walk;
use header::header::Header;
use header::make::make_header;
use wire::due::Due;
use wire::reader::Reader;
use wire::record::Record;
use wire::refusal::Fault;

// The most bytes of a block file.
pub const FILE_LIMIT: usize = 4194304;

// Reads the header record in front of a file. Before it is read nothing is known of a block, and a header record is read alike in every
// block. The reader gives nothing but what is due, with k and s in range, so the two refusals here are never met.
fn read_header(reader: &mut Reader) -> Result<Header, FileRefusal>
    requires { reader.old.at ≡ 0 }
    ensures read { HeadRead reader.old.bytes.now result }
    ensures behind { OnOk result (reader.new.at ≡ roots_place) }
    ensures same { reader.new.bytes ≡ reader.old.bytes }
{
    let at = reader.place();
    let item = reader.read(&Header::smallest(), Due::Header)?;
    let Record::Header {
        k,
        s,
        hash_kind,
        code_kind,
        data_root,
    } = item
    else {
        return Err(refused(Fault::NotDue, at));
    };
    let Ok(header) = make_header(k as usize, s as usize, hash_kind, code_kind, data_root) else {
        return Err(refused(Fault::OutOfRange, at));
    };
    Ok(header)
}

// Reads the roots record behind the header record; the refusal here is never met.
fn read_roots<'a>(h: &Header, reader: &mut Reader<'a>) -> Result<&'a [u8], FileRefusal>
    requires { reader.old.at ≡ roots_place }
    ensures read { MatchResult result (λ rs. RootsAre (fields_of h.now) reader.old.bytes.now rs.now) (λ e. reads_at (fields_of h.now) Roots roots_place (drop roots_place reader.old.bytes.now) ≡ Err (told e)) }
    ensures behind { OnOk result (reader.new.at ≡ groups_place (fields_of h.now)) }
    ensures same { reader.new.bytes ≡ reader.old.bytes }
{
    let at = reader.place();
    let item = reader.read(h, Due::Roots)?;
    let Record::Roots(roots) = item else {
        return Err(refused(Fault::NotDue, at));
    };
    Ok(roots)
}

impl<'a> BlockFile<'a> {
    // A file with no share, to be opened.
    pub fn empty() -> BlockFile<'a>
        ensures { Means result nothing }
    {
        let header = Header::smallest();
        BlockFile {
            header,
            roots: &[],
            bytes: &[],
            index: Index::empty(),
        }
    }
}

// Opens the block file that lies in some bytes. Refused, the opened file is what it was.
pub fn open_file<'a>(file: &mut BlockFile<'a>, bytes: &'a [u8]) -> Result<(), FileRefusal>
    ensures answer { outcome told result ≡ closed (file_outcome bytes.now) }
    ensures opened { Opens file.old (file_outcome bytes.now) file.new }
{
    if bytes.len() > FILE_LIMIT {
        return Err(FileRefusal::TooLong);
    }
    let mut reader = Reader::new(bytes);
    let header = read_header(&mut reader)?;
    let roots = read_roots(&header, &mut reader)?;
    let mut walk = Walk::new(header);
    walk.run(reader)?;
    // Field by field, so that no second table of the cells is made.
    file.header = header;
    file.roots = roots;
    file.bytes = bytes;
    file.index = walk.index;
    Ok(())
}
