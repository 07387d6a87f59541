// What the bodies of records say. Their lengths were compared before.
ghost use Rattle.std.specs.Prelude.{◌≡◌, ◌≤◌, ◌+◌, ◌*◌, true, length};
ghost use Rattle.hash.specs.Digests.{digest_len};
ghost use Rattle.header.specs.Fields.{Fields, fields_of};
ghost use Rattle.header.specs.Sizes.{claim_body_len, group_body_len, header_body_len, share_body_len, witness_body_len};
ghost use Rattle.wire.specs.Parts.{Begins, value_of};
ghost use Rattle.wire.specs.Kinds.{code_of};
ghost use Rattle.wire.specs.Reading.{body_for, claim_in, group_in, header_in, record_in, share_in, witness_in};

use crate::kind::Kind;
use crate::record::Record;
use hash::limits::DIGEST_LEN;
use header::header::Header;

fn header_in<'a>(body: &'a [u8]) -> Record<'a>
    requires { length body.now ≡ header_body_len }
    ensures value { value_of result ≡ header_in body.now }
    ensures place { (h : Fields) → Begins h body.entry.ref_ptr result }
{
    Record::Header {
        k: u16::from_le_bytes([body[0], body[1]]),
        s: u16::from_le_bytes([body[2], body[3]]),
        hash_kind: body[4],
        code_kind: body[5],
        data_root: &body[6..],
    }
}

fn group_in<'a>(body: &'a [u8]) -> Record<'a>
    requires { length body.now ≡ group_body_len }
    ensures value { value_of result ≡ group_in body.now }
    ensures place { (h : Fields) → Begins h body.entry.ref_ptr result }
{
    Record::Group {
        axis: body[0],
        index: u16::from_le_bytes([body[1], body[2]]),
    }
}

fn share_in<'a>(h: &Header, body: &'a [u8]) -> Record<'a>
    requires { length body.now ≡ share_body_len (fields_of h.now) }
    ensures value { value_of result ≡ share_in (fields_of h.now) body.now }
    ensures place { Begins (fields_of h.now) body.entry.ref_ptr result }
{
    let cut = 2 + h.s as usize;
    Record::Share {
        place: u16::from_le_bytes([body[0], body[1]]),
        share: &body[2..cut],
        path: &body[cut..],
    }
}

fn claim_in<'a>(body: &'a [u8]) -> Record<'a>
    requires { 3 + digest_len ≤ length body.now }
    ensures value { value_of result ≡ claim_in body.now }
    ensures place { (h : Fields) → Begins h body.entry.ref_ptr result }
{
    let cut = 3 + DIGEST_LEN;
    Record::Claim {
        axis: body[0],
        index: u16::from_le_bytes([body[1], body[2]]),
        root: &body[3..cut],
        path: &body[cut..],
    }
}

#[tactic(auto, using(crate::proofs::Slices::first_part, crate::proofs::Slices::second_part))]
fn witness_in<'a>(h: &Header, body: &'a [u8]) -> Record<'a>
    requires { length body.now ≡ witness_body_len (fields_of h.now) }
    ensures value { value_of result ≡ witness_in (fields_of h.now) body.now }
    ensures place { Begins (fields_of h.now) body.entry.ref_ptr result }
{
    let cut = 3 + h.s as usize;
    Record::Witness {
        place: u16::from_le_bytes([body[0], body[1]]),
        axis: body[2],
        share: &body[3..cut],
        path: &body[cut..],
    }
}

// The record of a kind whose body has the length of that kind.
#[tactic(auto, unfolding(crate::specs::Reading::body_for, crate::specs::Reading::record_in))]
pub(crate) fn record_in<'a>(h: &Header, kind: Kind, body: &'a [u8]) -> Record<'a>
    requires { length body.now ≡ body_for (fields_of h.now) (code_of kind) }
    ensures value { value_of result ≡ record_in (fields_of h.now) (code_of kind) body.now }
    ensures place { Begins (fields_of h.now) body.entry.ref_ptr result }
{
    match kind {
        Kind::Header => header_in(body),
        Kind::Roots => Record::Roots(body),
        Kind::Group => group_in(body),
        Kind::Share => share_in(h, body),
        Kind::GroupEnd => Record::GroupEnd,
        Kind::Claim => claim_in(body),
        Kind::Witness => witness_in(h, body),
    }
}
