// The table of a code's weights, for which the caller has the room. That k is allowed stands in clauses: the public calls take k as a
// number, and a type for it would be made and taken apart between two of them.
ghost use Rattle.std.specs.Prelude.{◌≡◌, ℕ, ◌*◌, ◌<◌, true, length, slice_index};
ghost use Rattle.erasure.specs.Limits.{ok_width};
ghost use Rattle.erasure.specs.Places.{rising_below};
ghost use Rattle.erasure.specs.Weights.{CodeRows, weight_table};

use crate::code::Code;

// The largest table: 64 rows of 32. The library allocates nothing, so the tables and places of a smaller k take the front of as much.
pub(crate) const TABLE_ROOM: usize = 2048;

// The weights of the shares at these places, a row for each symbol.
pub(crate) fn weight_table<'a, C: Code>(places: &[u16], space: &'a mut [u8; TABLE_ROOM]) -> &'a [u8]
    requires { (ok_width (length places.now) ≡ true) × (rising_below (2 * length places.now) places.now ≡ true) }
    ensures { result.now ≡ weight_table C.Code.weight (length places.now) places.now }
{
    let k = places.len();
    let rows = &mut space[0..2 * k * k];
    C::weights(places, rows);
    rows
}

// The places 0, 1, 2 and so on.
fn count_places(places: &mut [u16])
    requires { length places.old < 33 }
    ensures { (j : ℕ) → j < length places.new → slice_index places.new j ≡ j }
{
    for (j, place) in places.iter_mut().enumerate() {
        *place = j as u16;
    }
}

// The rows of the code's own table: the weights of the shares at the first k places.
pub(crate) fn code_rows<'a, C: Code>(k: usize, space: &'a mut [u8; TABLE_ROOM]) -> &'a [u8]
    requires { ok_width k ≡ true }
    ensures { CodeRows C.Code.table k result.now }
{
    let mut first = [0u16; 32];
    let places = &mut first[0..k];
    count_places(places);
    weight_table::<C>(places, space)
}
