// The trait of hashes.
ghost use Rattle.std.specs.Prelude.{◌≡◌, ℕ, ◌+◌, ◌<◌, List, ◌∷◌, ◌++◌, length, slice_index};
ghost use Rattle.octets.specs.Outcome.{outcome};
ghost use Rattle.hash.specs.Digests.{digest_len, digest_out, digest_outcome};
ghost use Rattle.hash.specs.Refusals.{told};

use crate::limits::{DIGEST_LEN, admit};
use crate::message::Message;
use crate::refusal::DigestRefusal;

pub trait Hash {
    // The byte that names this hash in a header; a clause names it by the member beside it.
    const KIND: u8;

    ghost KIND: { ℕ };

    // What the hash is: a function from byte strings to digests.
    ghost meaning: { List ℕ → List ℕ };

    // The digest of a message in parts.
    fn of(message: &Message) -> [u8; DIGEST_LEN]
        ensures { result ≡ meaning message.now };

    // Joins a lead byte and two parts and writes their digest.
    fn digest(lead: u8, left: &[u8], right: &[u8], out: &mut [u8]) -> Result<(), DigestRefusal>
        ensures answer { outcome told result ≡ digest_outcome (length left.now + length right.now) (length out.old) }
        ensures written { out.new ≡ digest_out (length left.now + length right.now) out.old (meaning (lead ∷ (left.now ++ right.now))) }
    {
        admit(left.len(), right.len(), out.len())?;
        out.copy_from_slice(&Self::of(&Message::of_parts(&[lead], left, right)?));
        Ok(())
    }

    // Writes the digest of a whole message, with no lead byte; it refuses as `digest` does with the message as its one part.
    // A function for both would take the lead as a slice, and save one line.
    fn hash_message(message: &[u8], out: &mut [u8]) -> Result<(), DigestRefusal>
        ensures answer { outcome told result ≡ digest_outcome (length message.now) (length out.old) }
        ensures written { out.new ≡ digest_out (length message.now) out.old (meaning message.now) }
    {
        admit(message.len(), 0, out.len())?;
        out.copy_from_slice(&Self::of(&Message::of_parts(&[], message, &[])?));
        Ok(())
    }

    ghost sized: { (m : List ℕ) → length (meaning m) ≡ digest_len };

    ghost bytes: { (m : List ℕ) (i : ℕ) → slice_index (meaning m) i < 256 };
}
