// The weights of a recovery, worked out once for all byte places. Each weight is a factor of its symbol by a factor of its share by
// 1 / (i xor p), p being the share's place, so that the work is k times 2k and not k times that.
ghost use Rattle.std.specs.Prelude.{◌≡◌, ℕ, ◌*◌, ◌<◌, ◌≤◌, length, slice_index};
ghost use Rattle.octets.specs.Shares.{byte_of};
ghost use Rattle.codes.specs.Code.{scaled_weight};
ghost use Rattle.codes.specs.Words.{at};
ghost use Rattle.erasure.specs.Weights.{denominator, numerator, weighable, weighed, weight_by};
ghost use Rattle.galois.specs.Field.{inv, mul};

use crate::given::Given;
use crate::limits::ok_width;
use crate::places::are_rising;
use galois::element::{inverse, product};

// A code whose words are a polynomial's values, each times a factor of its own symbol.
pub(crate) trait Scaled {
    ghost factor: { ℕ → ℕ → ℕ };

    // The factor of symbol i of 2k.
    fn factor(k: usize, i: usize) -> u8
        requires { (k < 33) × (i < 2 * k) }
        ensures { result ≡ factor k i };

    // None is 0.
    ghost units: { (k : ℕ) → k ≤ 128 → (i : ℕ) → i < 2 * k → mul (factor k i) (inv (factor k i)) ≡ 1 };
}

// Whether these places have weights, and n is as long as their table.
fn are_weighable(places: &[u16], n: usize) -> bool
    ensures { result ≡ weighable places.now n }
{
    let k = places.len();
    if !ok_width(k) {
        return false;
    }
    are_rising(places, 2 * k) && n == 2 * k * k
}

// The weight of the share at a place in symbol i, from the factors of both.
fn weight(of_symbol: u8, of_share: u8, i: usize, place: u16) -> u8
    requires { (i < 256) × (place < 256) }
    ensures { result ≡ weight_by of_symbol of_share i place }
{
    if place as usize == i {
        1
    } else {
        let gap = (i as u16 ^ place) as u8;
        product(product(of_symbol, inverse(gap)), of_share)
    }
}

// The factors of all symbols.
fn symbol_factors<S: Scaled>(k: usize, factors: &mut [u8])
    requires { (k < 33) × (length factors.old ≡ 2 * k) }
    ensures { (i : ℕ) → i < 2 * k → slice_index factors.new i ≡ S.Scaled.factor k i }
{
    for (i, factor) in factors.iter_mut().enumerate() {
        *factor = S::factor(k, i);
    }
}

impl Given<'_> {
    // The product over all places of i xor that place.
    fn numerator(&self, i: usize) -> u8
        requires { i < 2 * length self.now.places.now }
        ensures { result ≡ numerator (length self.now.places.now) (at self.now.places.now) i }
    {
        let mut all = 1;
        for place in self.places {
            all = product((i as u16 ^ *place) as u8, all);
        }
        all
    }

    // The product over all places but the j-th of 1 / (the j-th xor that place).
    fn denominator(&self, j: usize) -> u8
        requires { j < length self.now.places.now }
        ensures { result ≡ denominator (length self.now.places.now) (at self.now.places.now) j }
    {
        let mut all = 1;
        for (m, place) in self.places.iter().enumerate() {
            if m != j {
                all = product(inverse((self.places[j] ^ *place) as u8), all);
            }
        }
        all
    }

    // The factors of the shares, from those of the symbols.
    fn share_factors(&self, symbols: &[u8], factors: &mut [u8])
        requires { (length symbols.now ≡ 2 * length self.now.places.now) × (length factors.old ≡ length self.now.places.now) }
        ensures { (j : ℕ) → j < length self.now.places.now → slice_index factors.new j ≡ mul (inv (at symbols.now (at self.now.places.now j))) (denominator (length self.now.places.now) (at self.now.places.now) j) }
    {
        for (j, factor) in factors.iter_mut().enumerate() {
            let unscale = inverse(symbols[self.places[j] as usize]);
            *factor = product(unscale, self.denominator(j));
        }
    }

    // The weights in symbol i.
    fn weight_row(&self, shares: &[u8], of_symbol: u8, i: usize, row: &mut [u8])
        requires { (length shares.now ≡ length self.now.places.now) × ((i < 2 * length self.now.places.now) × (length row.old ≡ length self.now.places.now)) }
        ensures { (j : ℕ) → j < length self.now.places.now → slice_index row.new j ≡ weight_by of_symbol (at shares.now j) i (at self.now.places.now j) }
    {
        // Of what is written through a `zip` over `iter_mut` a proof knows nothing.
        for (j, entry) in row.iter_mut().enumerate() {
            *entry = weight(of_symbol, shares[j], i, self.places[j]);
        }
    }

    // All rows of weights, from the factors of the symbols and of the shares.
    fn weight_rows(&self, symbols: &[u8], shares: &[u8], rows: &mut [u8])
        requires factors { (length symbols.now ≡ 2 * length self.now.places.now) × (length shares.now ≡ length self.now.places.now) }
        requires table { length rows.old ≡ 2 * length self.now.places.now * length self.now.places.now }
        ensures { (i : ℕ) → i < 2 * length self.now.places.now → (j : ℕ) → j < length self.now.places.now → byte_of (length self.now.places.now) i j rows.new ≡ weight_by (mul (at symbols.now i) (numerator (length self.now.places.now) (at self.now.places.now) i)) (at shares.now j) i (at self.now.places.now j) }
    {
        let k = self.places.len();
        for (i, factor) in symbols.iter().enumerate() {
            let of_symbol = product(*factor, self.numerator(i));
            self.weight_row(shares, of_symbol, i, &mut rows[i * k..i * k + k]);
        }
    }

    // Writes the whole table of weights.
    fn weights<S: Scaled>(&self, rows: &mut [u8])
        requires { length rows.old ≡ 2 * length self.now.places.now * length self.now.places.now }
        ensures { (i : ℕ) → i < 2 * length self.now.places.now → (j : ℕ) → j < length self.now.places.now → byte_of (length self.now.places.now) i j rows.new ≡ scaled_weight S.Scaled.factor (length self.now.places.now) (at self.now.places.now) i j }
    {
        let k = self.places.len();
        // The factors of the largest k: the library allocates nothing. How many of them are used only k says, and no type.
        let mut symbol_space = [0u8; 64];
        let symbols = &mut symbol_space[0..2 * k];
        symbol_factors::<S>(k, symbols);
        let mut share_space = [0u8; 32];
        let shares = &mut share_space[0..k];
        self.share_factors(symbols, shares);
        self.weight_rows(symbols, shares, rows);
    }
}

// Writes the weights of the shares at these places, where they have weights and the rows fit.
pub(crate) fn weigh<S: Scaled>(places: &[u16], rows: &mut [u8])
    ensures { rows.new ≡ weighed (scaled_weight S.Scaled.factor) places.now rows.old }
{
    if are_weighable(places, rows.len()) {
        Given { places }.weights::<S>(rows);
    }
}
