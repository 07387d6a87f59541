// Messages to be hashed.
ghost use Rattle.std.specs.Prelude.{◌≡◌, ◌+◌, ◌≤◌, ◌++◌, ℕ, List, length};
ghost use Rattle.octets.specs.Outcome.{outcome};
ghost use Rattle.hash.specs.Blocks.{message_limit};
ghost use Rattle.hash.specs.Digests.{message_outcome};
ghost use Rattle.hash.specs.Refusals.{told};

use crate::limits::MESSAGE_LIMIT;
use crate::refusal::DigestRefusal;
use octets::parts::Parts;
use std::marker::Model;

// A message in parts that lie apart: `lead`, `left` and `right`, one after the other. It has at most 4,097 bytes: a lead byte, and as
// many as the two parts of a digest may have. `Parts` has a fourth slice, for what follows a message, and no such bound.
#[derive(Drop)]
pub struct Message<'a> {
    lead: &'a [u8],
    left: &'a [u8],
    right: &'a [u8],
}

impl<'a> Model for Message<'a> {
    ghost Value = { List ℕ };

    ghost view = { λ m. m.lead.now ++ (m.left.now ++ m.right.now) };

    ghost invariant = { λ m. length m.lead.now + length m.left.now + length m.right.now ≤ message_limit };
}

impl<'a> Message<'a> {
    // Refused where the parts have over 4,097 bytes together.
    pub fn of_parts(
        lead: &'a [u8],
        left: &'a [u8],
        right: &'a [u8],
    ) -> Result<Message<'a>, DigestRefusal>
        ensures { outcome told result ≡ message_outcome lead.now left.now right.now }
    {
        let bytes = lead
            .len()
            .saturating_add(left.len())
            .saturating_add(right.len());
        if bytes > MESSAGE_LIMIT {
            return Err(DigestRefusal::TooLong);
        }
        Ok(Message { lead, left, right })
    }

    // How many bytes it has.
    pub fn len(&self) -> usize
        ensures bytes { result ≡ length self.now }
        ensures few { result ≤ message_limit }
    {
        self.lead.len() + self.left.len() + self.right.len()
    }

    // The message and what follows it, to be cut into blocks.
    pub fn followed_by<'b>(&self, tail: &'b [u8]) -> Parts<'b>
    where
        'a: 'b,
        ensures { result ≡ self.now ++ tail.now }
    {
        Parts::new(self.lead, self.left, self.right, tail)
    }
}
