// Writing a record.
ghost use Rattle.std.specs.Prelude.{◌≡◌, ℕ, ◌+◌, ◌^◌, ◌<◌, ◌≤◌, ◌++◌, length, take, OnOk};
ghost use Rattle.octets.specs.Outcome.{outcome};
ghost use Rattle.octets.specs.Written.{written};
ghost use Rattle.header.specs.Fields.{fields_of};
ghost use Rattle.header.specs.Sizes.{head_len};
ghost use Rattle.wire.specs.Kinds.{code_of};
ghost use Rattle.wire.specs.Parts.{value_of};
ghost use Rattle.wire.specs.Refusals.{told_write};
ghost use Rattle.wire.specs.Writing.{ReadsBack, body_of, bytes_of, framed, head_of, kind_of, target_fits, write_outcome};

use crate::kind::Kind;
use crate::range::{in_range, parts_fit};
use crate::record::Record;
use crate::refusal::WriteRefusal;
use header::header::Header;

// The bytes before a body: its length and its kind.
pub const HEAD_LEN: usize = 6;

impl<'a> Record<'a> {
    pub fn kind(&self) -> Kind
        ensures { code_of result ≡ kind_of (value_of self.now) }
    {
        match *self {
            Record::Header { .. } => Kind::Header,
            Record::Roots(_) => Kind::Roots,
            Record::Group { .. } => Kind::Group,
            Record::Share { .. } => Kind::Share,
            Record::GroupEnd => Kind::GroupEnd,
            Record::Claim { .. } => Kind::Claim,
            Record::Witness { .. } => Kind::Witness,
        }
    }
}

// Whether the parts of a record and a target of `room` bytes have the right lengths.
fn target_fits(h: &Header, item: &Record, room: usize) -> bool
    ensures { result ≡ target_fits (fields_of h.now) (value_of item.now) room }
{
    let whole = item.kind().record_len(h);
    parts_fit(h, item) && room == whole
}

// The head of a record.
fn head(len: u32, kind: Kind) -> [u8; HEAD_LEN]
    ensures { result ≡ head_of len (code_of kind) }
{
    let [l0, l1, l2, l3] = len.to_le_bytes();
    let [k0, k1] = u16::from(kind).to_le_bytes();
    [l0, l1, l2, l3, k0, k1]
}

// Writes a record of this kind whose body is some numbers and then two parts.
fn put_parts(out: &mut [u8], kind: Kind, numbers: &[u8], first: &[u8], second: &[u8])
    requires { (length numbers.now + length first.now + length second.now < 2 ^ 32) × (length out.old ≡ head_len + (length numbers.now + length first.now + length second.now)) }
    ensures { out.new ≡ framed (code_of kind) (numbers.now ++ (first.now ++ second.now)) }
{
    let len = numbers.len() + first.len() + second.len();
    let (front, body) = out.split_at_mut(HEAD_LEN);
    front.copy_from_slice(&head(len as u32, kind));
    let (values, parts) = body.split_at_mut(numbers.len());
    values.copy_from_slice(numbers);
    let (left, right) = parts.split_at_mut(first.len());
    left.copy_from_slice(first);
    right.copy_from_slice(second);
}

// Writes a record to a target of its length.
#[tactic(auto, unfolding(crate::specs::Writing::bytes_of))]
fn put_record(item: &Record, out: &mut [u8])
    requires { (length (body_of (value_of item.now)) < 2 ^ 32) × (length out.old ≡ head_len + length (body_of (value_of item.now))) }
    ensures { out.new ≡ bytes_of (value_of item.now) }
{
    match *item {
        Record::Header {
            k,
            s,
            hash_kind,
            code_kind,
            data_root,
        } => {
            let [k0, k1] = k.to_le_bytes();
            let [s0, s1] = s.to_le_bytes();
            let numbers = [k0, k1, s0, s1, hash_kind, code_kind];
            put_parts(out, Kind::Header, &numbers, data_root, &[])
        }
        Record::Roots(roots) => put_parts(out, Kind::Roots, &[], roots, &[]),
        Record::Group { axis, index } => {
            let [i0, i1] = index.to_le_bytes();
            put_parts(out, Kind::Group, &[axis, i0, i1], &[], &[])
        }
        Record::Share { place, share, path } => {
            let [p0, p1] = place.to_le_bytes();
            put_parts(out, Kind::Share, &[p0, p1], share, path)
        }
        Record::GroupEnd => put_parts(out, Kind::GroupEnd, &[], &[], &[]),
        Record::Claim {
            axis,
            index,
            root,
            path,
        } => {
            let [i0, i1] = index.to_le_bytes();
            put_parts(out, Kind::Claim, &[axis, i0, i1], root, path)
        }
        Record::Witness {
            place,
            axis,
            share,
            path,
        } => {
            let [p0, p1] = place.to_le_bytes();
            put_parts(out, Kind::Witness, &[p0, p1, axis], share, path)
        }
    }
}

// Writes a record of the block of a header to a target that has exactly the record's length.
pub fn write_record(h: &Header, item: &Record, out: &mut [u8]) -> Result<(), WriteRefusal>
    ensures answer { outcome told_write result ≡ write_outcome (fields_of h.now) (value_of item.now) (length out.old) }
    ensures written { out.new ≡ written (write_outcome (fields_of h.now) (value_of item.now) (length out.old)) (bytes_of (value_of item.now)) out.old }
    ensures back { OnOk result (ReadsBack (fields_of h.now) (value_of item.now) out.new) }
{
    if !in_range(h, item) {
        return Err(WriteRefusal::OutOfRange);
    }
    if !target_fits(h, item, out.len()) {
        return Err(WriteRefusal::WrongLength);
    }
    put_record(item, out);
    Ok(())
}
