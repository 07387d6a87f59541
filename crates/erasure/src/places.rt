// Lists of places.
ghost use Rattle.erasure.specs.Places.{rising_below};
ghost use Rattle.std.specs.Prelude.{◌≡◌, ◌&&◌, nat_lt};

// Whether a place comes after another one and is below w.
fn rises_to(low: u16, place: u16, w: usize) -> bool
    ensures { result ≡ (nat_lt low place && nat_lt place w) }
{
    low < place && (place as usize) < w
}

// Whether the places are strictly increasing and below w.
pub fn are_rising(places: &[u16], w: usize) -> bool
    ensures { result ≡ rising_below w places.now }
{
    let Some(first) = places.first() else {
        return true;
    };
    // In one pass, which ends at the first place that does not rise or is not below w.
    (*first as usize) < w && places.is_sorted_by(|a, b| rises_to(*a, *b, w))
}
