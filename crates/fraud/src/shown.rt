// The shares of a line that witnesses show.
ghost use Rattle.std.specs.Prelude.{◌≡◌, ℕ, ◌*◌, ◌<◌, true, length, slice_index};
ghost use Rattle.erasure.specs.Places.{rising_below};
ghost use Rattle.fraudproof.specs.Proof.{witness_len};
ghost use Rattle.header.specs.Fields.{fields_of};
ghost use Rattle.header.specs.Sizes.{width};

use header::header::Header;

// k witness records one after the other, and the places of their shares on the line.
#[derive(Clone, Copy)]
pub(crate) struct Shown<'a> {
    pub(crate) header: &'a Header,
    pub(crate) places: &'a [u16],
    pub(crate) records: &'a [u8],
    ghost many: { length places.now ≡ (fields_of header.now).k },
    ghost rising: { rising_below (width (fields_of header.now)) places.now ≡ true },
    ghost whole: { length records.now ≡ (fields_of header.now).k * witness_len (fields_of header.now) },
    // Proofs know that a parameter's entries are bytes, but not those of a slice behind a field.
    ghost bytes: { (n : ℕ) → slice_index records.now n < 256 },
}
