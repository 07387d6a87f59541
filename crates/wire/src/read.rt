// Reading a record from the front of some bytes.
ghost use Rattle.std.specs.Prelude.{◌≡◌, ◌==◌, ◌+◌, ◌<◌, ◌≤◌, length, IfOk, OnErr, OnOk, true};
ghost use Rattle.octets.specs.Outcome.{outcome_by};
ghost use Rattle.header.specs.Fields.{fields_of};
ghost use Rattle.header.specs.Sizes.{head_len};
ghost use Rattle.wire.specs.Parts.{Begins, after, read_of, value_of};
ghost use Rattle.wire.specs.Readers.{Moves, read_by, rest_of};
ghost use Rattle.wire.specs.Reading.{body_len, reads, reads_at};
ghost use Rattle.wire.specs.Refusals.{told_fault, told_read};
ghost use Rattle.wire.specs.Writing.{WritesBack};
ghost use Rattle.wire.specs.declared.due.Due.TheVariants.{Anything};

use crate::body::record_in;
use crate::due::Due;
use crate::kind::admit;
use crate::range::in_range;
use crate::reader::Reader;
use crate::record::Record;
use crate::refusal::{Fault, ReadRefusal};
use header::header::Header;

// Reads the first record of some bytes, where this is due in the block of a header: the record, whose parts are parts of the bytes, and
// the bytes behind it.
pub fn read_due<'a>(h: &Header, due: Due, bytes: &'a [u8]) -> Result<(Record<'a>, &'a [u8]), Fault>
    ensures value { outcome_by read_of told_fault result ≡ reads (fields_of h.now) due bytes.now }
    ensures place { IfOk result (λ x. Begins (fields_of h.now) (after bytes.entry.ref_ptr head_len) x.0 × (x.1.ref_ptr ≡ after bytes.entry.ref_ptr (head_len + body_len bytes.now))) }
    ensures shorter { IfOk result (λ x. length x.1.now + head_len ≤ length bytes.now) }
    ensures back { IfOk result (λ x. WritesBack (fields_of h.now) bytes.now (value_of x.0) x.1.now) }
{
    let [l0, l1, l2, l3, k0, k1, rest @ ..] = bytes else {
        return Err(Fault::CutShort);
    };
    let len = u32::from_le_bytes([*l0, *l1, *l2, *l3]) as usize;
    let code = u16::from_le_bytes([*k0, *k1]);
    // Cut by ranges, since split_at_checked does not promise where its parts lie.
    if rest.len() < len {
        return Err(Fault::CutShort);
    }
    let kind = admit(h, due, code, len)?;
    let item = record_in(h, kind, &rest[0..len]);
    if !in_range(h, &item) {
        return Err(Fault::OutOfRange);
    }
    Ok((item, &rest[len..]))
}

// Reads one record of whatever kind in the block of a header.
pub fn read_record<'a>(h: &Header, bytes: &'a [u8]) -> Result<(Record<'a>, &'a [u8]), Fault>
    ensures value { outcome_by read_of told_fault result ≡ reads (fields_of h.now) Anything bytes.now }
    ensures place { IfOk result (λ x. Begins (fields_of h.now) (after bytes.entry.ref_ptr head_len) x.0 × (x.1.ref_ptr ≡ after bytes.entry.ref_ptr (head_len + body_len bytes.now))) }
    ensures back { IfOk result (λ x. WritesBack (fields_of h.now) bytes.now (value_of x.0) x.1.now) }
{
    read_due(h, Due::Anything, bytes)
}

// Reads the record that is due at place `at` of a file or a proof; `rest` are its bytes from there on.
pub fn read_at<'a>(
    h: &Header,
    due: Due,
    at: usize,
    rest: &'a [u8],
) -> Result<(Record<'a>, &'a [u8]), ReadRefusal>
    ensures value { outcome_by read_of told_read result ≡ reads_at (fields_of h.now) due at rest.now }
    ensures place { IfOk result (λ x. Begins (fields_of h.now) (after rest.entry.ref_ptr head_len) x.0 × (x.1.ref_ptr ≡ after rest.entry.ref_ptr (head_len + body_len rest.now))) }
    ensures shorter { IfOk result (λ x. length x.1.now + head_len ≤ length rest.now) }
    ensures back { IfOk result (λ x. WritesBack (fields_of h.now) rest.now (value_of x.0) x.1.now) }
{
    if rest.is_empty() {
        return Err(ReadRefusal {
            fault: Fault::NotDue,
            at,
        });
    }
    read_due(h, due, rest).map_err(|fault| ReadRefusal { fault, at })
}

impl<'a> Reader<'a> {
    // At the front of some bytes.
    pub fn new(bytes: &'a [u8]) -> Reader<'a>
        ensures bytes { result.bytes ≡ bytes.entry }
        ensures place { result.at ≡ 0 }
    {
        Reader { bytes, at: 0 }
    }

    // The byte place that the reader has come to.
    pub fn place(&self) -> usize
        ensures { result ≡ self.now.at }
    {
        self.at
    }

    // The bytes that were not read yet.
    pub fn rest(&self) -> &'a [u8]
        ensures value { result.now ≡ rest_of self.now }
        ensures place { result.ref_ptr ≡ after self.now.bytes.ref_ptr self.now.at }
    {
        &self.bytes[self.at..]
    }

    // Whether every byte was read.
    pub fn is_at_end(&self) -> bool
        ensures { result ≡ (length (rest_of self.now) == 0) }
    {
        self.rest().is_empty()
    }

    // Reads the record that is due, in the block of a header, and moves on behind it. Refused, it stays where it was.
    pub fn read(&mut self, h: &Header, due: Due) -> Result<Record<'a>, ReadRefusal>
        ensures answer { outcome_by (read_by self.new) told_read result ≡ reads_at (fields_of h.now) due self.old.at (rest_of self.old) }
        ensures moved { IfOk result (λ x. Moves (fields_of h.now) self.old self.new x) }
        ensures on { OnOk result (self.old.at < self.new.at) }
        ensures stays { OnErr result (self.new ≡ self.old) }
        ensures same { self.new.bytes ≡ self.old.bytes }
    {
        let (item, behind) = read_at(h, due, self.at, self.rest())?;
        self.at = self.bytes.len() - behind.len();
        Ok(item)
    }
}
