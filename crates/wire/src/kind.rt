// The kinds of records.
ghost use Rattle.std.specs.Prelude.{◌≡◌, ◌+◌, ◌*◌, true, IfOk};
ghost use Rattle.octets.specs.Outcome.{outcome_by};
ghost use Rattle.header.specs.Fields.{fields_of};
ghost use Rattle.header.specs.Sizes.{head_len};
ghost use Rattle.wire.specs.Kinds.{Named, anything, code_of};
ghost use Rattle.wire.specs.Reading.{admitted, body_for, is_due};
ghost use Rattle.wire.specs.Refusals.{told_fault};

use crate::due::Due;
use crate::refusal::Fault;
use crate::write::HEAD_LEN;
use header::header::Header;

// The number of a kind is what stands in the head of its records.
#[derive(Clone, Copy, PartialEq, Eq, Debug)]
pub enum Kind {
    Header = 0x0001,
    Roots = 0x0002,
    Group = 0x0003,
    Share = 0x0004,
    GroupEnd = 0x0005,
    Claim = 0x0010,
    Witness = 0x0011,
}

impl From<Kind> for u16 {
    ghost from_gives = { λ kind n. n ≡ code_of kind };

    fn from(kind: Kind) -> u16 {
        kind as u16
    }
}

impl TryFrom<u16> for Kind {
    type Error = Fault;

    ghost try_from_gives = { Named };

    #[tactic(auto, using(std::proofs::lemmas::Bool::Decides::nat_tests), unfolding(crate::specs::Reading::is_known))]
    fn try_from(code: u16) -> Result<Kind, Fault> {
        match code {
            0x0001 => Ok(Kind::Header),
            0x0002 => Ok(Kind::Roots),
            0x0003 => Ok(Kind::Group),
            0x0004 => Ok(Kind::Share),
            0x0005 => Ok(Kind::GroupEnd),
            0x0010 => Ok(Kind::Claim),
            0x0011 => Ok(Kind::Witness),
            _ => Err(Fault::UnknownKind),
        }
    }
}

impl Kind {
    // Whether a record of this kind may come at this point.
    #[tactic(auto, unfolding(crate::specs::Reading::is_due))]
    fn is_due(self, due: Due) -> bool
        ensures { result ≡ is_due due (code_of self) }
    {
        match due {
            Due::Header => self == Kind::Header,
            Due::Roots => self == Kind::Roots,
            Due::Group => self == Kind::Group,
            Due::InGroup => self == Kind::Share || self == Kind::GroupEnd,
            Due::Claim => self == Kind::Claim,
            Due::Witness => self == Kind::Witness,
            Due::Nothing => false,
            Due::Anything => true,
        }
    }

    // The length of the body of a record of this kind in a block.
    #[tactic(auto, unfolding(crate::specs::Reading::body_for))]
    pub(crate) fn body_len(self, h: &Header) -> usize
        ensures { result ≡ body_for (fields_of h.now) (code_of self) }
    {
        let n = h.lengths();
        match self {
            Kind::Header => n.header_body,
            Kind::Roots => n.roots,
            Kind::Group => n.group_body,
            Kind::Share => n.share_body,
            Kind::GroupEnd => 0,
            Kind::Claim => n.claim_body,
            Kind::Witness => n.witness_body,
        }
    }

    // The length of a record of this kind in a block, its head included.
    pub fn record_len(self, h: &Header) -> usize
        ensures { result ≡ head_len + body_for (fields_of h.now) (code_of self) }
    {
        HEAD_LEN + self.body_len(h)
    }
}

// The kind with this number, where a record of it, with a body of this length, may come at this point.
pub(crate) fn admit(h: &Header, due: Due, code: u16, len: usize) -> Result<Kind, Fault>
    ensures answer { outcome_by anything told_fault result ≡ admitted (fields_of h.now) due code len }
    ensures kind { IfOk result (λ kind. code ≡ code_of kind) }
{
    let kind = Kind::try_from(code)?;
    if !kind.is_due(due) {
        return Err(Fault::NotDue);
    }
    if len != kind.body_len(h) {
        return Err(Fault::WrongBody);
    }
    Ok(kind)
}
