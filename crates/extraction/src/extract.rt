// Extraction.
ghost use Rattle.octets.specs.Outcome.{outcome};
ghost use Rattle.commitment.specs.Roots.{data_root_of, roots_of};
ghost use Rattle.extraction.specs.Extract.{AlwaysGives, AlwaysInHand, Writes, extract_outcome, extracted_from};
ghost use Rattle.extraction.specs.Extracted.{Compares, square_of};
ghost use Rattle.fraudproof.specs.Form.{case_outcome};
ghost use Rattle.fraudproof.specs.Proof.{Case};
ghost use Rattle.fraud.specs.Accepted.{Accepted};
ghost use Rattle.fraud.specs.Refusals.{told};
ghost use Rattle.header.specs.Fields.{fields_of};
ghost use Rattle.header.specs.Sizes.{data_len, roots_len, square_len};
ghost use Rattle.std.specs.Prelude.{◌≡◌, ℕ, length, Ok};

use crate::comparison::Comparison;
use crate::lengths::{STRING_LEN, lengths_fit};
use crate::rebuild::rebuild;
use erasure::code::Code;
use fraud::charge::Charge;
use fraud::check::check_proof;
use fraud::refusal::FraudRefusal;
use fraudproof::read::read_proof;
use hash::digest::Hash;
use header::header::Header;
use header::lengths::ROOTS_ROOM;

// Reads an accepted proof once more and compares it with the square. A function of its own: the parts of a comparison have one
// lifetime, and that of the header and of a square which was just written are two.
fn extract_from<'x, H: Hash>(
    h: &'x Header,
    square: &'x [u8],
    roots: &'x [u8],
    bytes: &'x [u8],
    string_a: &mut [u8; STRING_LEN],
    string_b: &mut [u8; STRING_LEN],
) -> Option<usize>
    requires kinds { h.now.hash_kind ≡ H.KIND }
    requires block { (length square.now ≡ square_len (fields_of h.now)) × ((roots.now ≡ roots_of H.meaning (fields_of h.now) square.now) × (length roots.now ≡ roots_len (fields_of h.now))) }
    ensures { (p : Case) → case_outcome (fields_of h.now) bytes.now ≡ Ok p → Compares H.meaning (fields_of h.now) square.now p result string_a.old string_b.old string_a.new string_b.new }
{
    let charge = Charge {
        header: h,
        proof: read_proof(h, bytes).ok()?,
    };
    let comparison = Comparison {
        charge,
        square,
        roots,
    };
    comparison.compare::<H>(string_a, string_b)
}

// Extends the data to `square` and `roots`, checks the proof and compares.
fn extract_with<H: Hash, C: Code>(
    h: &Header,
    shares: &[u8],
    bytes: &[u8],
    square: &mut [u8],
    roots: &mut [u8],
    string_a: &mut [u8; STRING_LEN],
    string_b: &mut [u8; STRING_LEN],
) -> Result<usize, FraudRefusal>
    requires kinds { (h.now.hash_kind ≡ H.Hash.KIND) × (h.now.code_kind ≡ C.Code.KIND) }
    requires block { (length shares.now ≡ data_len (fields_of h.now)) × ((length square.old ≡ square_len (fields_of h.now)) × (length roots.old ≡ roots_len (fields_of h.now))) }
    ensures answer { outcome told result ≡ extracted_from H.Hash.meaning C.Code.weight (fields_of h.now) (square_of C.Code.table (fields_of h.now) shares.now) bytes.now }
    ensures writes { Writes H.Hash.meaning (fields_of h.now) (square_of C.Code.table (fields_of h.now) shares.now) bytes.now (outcome told result) string_a.old string_b.old string_a.new string_b.new }
    ensures collision { AlwaysInHand H.Hash.meaning (outcome told result) string_a.new string_b.new }
    ensures gives { (fields_of h.now).data_root ≡ data_root_of H.Hash.meaning (fields_of h.now) (roots_of H.Hash.meaning (fields_of h.now) (square_of C.Code.table (fields_of h.now) shares.now)) → Accepted H.Hash.meaning C.Code.table H.Hash.KIND C.Code.KIND (fields_of h.now) bytes.now → (n : ℕ) × (outcome told result ≡ Ok n) }
{
    if !rebuild::<H, C>(h, shares, square, roots) {
        return Err(FraudRefusal::OtherData);
    }
    check_proof::<H, C>(h, bytes)?;
    match extract_from::<H>(h, square, roots, bytes, string_a, string_b) {
        Some(n) => Ok(n),
        // An accepted proof against the header of these data always gives a collision.
        None => unreachable(),
    }
}

// From data, the header that they give and a proof that is accepted for it, a collision: two strings with one digest, the proof's to the
// front of `string_a` and the extension's to that of `string_b`. It answers their common length. The data are extended in `scratch`.
pub fn extract<H: Hash, C: Code>(
    h: &Header,
    shares: &[u8],
    bytes: &[u8],
    string_a: &mut [u8],
    string_b: &mut [u8],
    scratch: &mut [u8],
) -> Result<usize, FraudRefusal>
    ensures answer { outcome told result ≡ extract_outcome H.Hash.meaning C.Code.weight C.Code.table H.Hash.KIND C.Code.KIND (fields_of h.now) shares.now bytes.now (length string_a.old) (length string_b.old) (length scratch.old) }
    ensures writes { Writes H.Hash.meaning (fields_of h.now) (square_of C.Code.table (fields_of h.now) shares.now) bytes.now (outcome told result) string_a.old string_b.old string_a.new string_b.new }
    ensures collision { AlwaysInHand H.Hash.meaning (outcome told result) string_a.new string_b.new }
    ensures gives { AlwaysGives H.Hash.meaning C.Code.table H.Hash.KIND C.Code.KIND (fields_of h.now) shares.now bytes.now (length string_a.old) (length string_b.old) (length scratch.old) (outcome told result) string_a.new string_b.new }
{
    // Tested before the lengths, as the order of the refusals is; checking the proof, which comes later, tests the kinds on its own.
    if h.hash_kind != H::KIND {
        return Err(FraudRefusal::OtherHash);
    }
    if h.code_kind != C::KIND {
        return Err(FraudRefusal::OtherCode);
    }
    let Some(string_a) = string_a.as_mut_array::<STRING_LEN>() else {
        return Err(FraudRefusal::WrongLength);
    };
    let Some(string_b) = string_b.as_mut_array::<STRING_LEN>() else {
        return Err(FraudRefusal::WrongLength);
    };
    if !lengths_fit(h, shares.len(), scratch.len()) {
        return Err(FraudRefusal::WrongLength);
    }
    let len = h.lengths().roots;
    // The library allocates nothing, so the roots of a smaller square take the front of as much.
    let mut roots = [0u8; ROOTS_ROOM];
    extract_with::<H, C>(
        h,
        shares,
        bytes,
        scratch,
        &mut roots[0..len],
        string_a,
        string_b,
    )
}
