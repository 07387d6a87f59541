// What a half-rate code is.
ghost use Rattle.std.specs.Prelude.{◌≡◌, ℕ};
ghost use Rattle.codes.specs.Code.{FirstLaw, SecondLaw, Table, Weight, WeightLaw};
ghost use Rattle.codes.specs.Words.{WordsLaw};
ghost use Rattle.erasure.specs.Weights.{weighed};

// A code is its table: for each k, 2k rows of k bytes. All else is said by it.
pub trait Code {
    // The byte that names this code in a header; a clause names it by the member beside it.
    const KIND: u8;

    ghost KIND: { ℕ };

    ghost table: { Table };

    // The weights of k given shares in each symbol. They only name the codeword through the shares, of which there is one by the
    // second law; so they narrow nothing.
    ghost weight: { Weight };

    // Writes the weights of the shares at these places, a row for each symbol. If the places have none, or the rows do not fit, nothing is
    // written. It gives no answer: whoever calls it has tested the places before, and would drop the answer.
    fn weights(places: &[u16], rows: &mut [u8])
        ensures { rows.new ≡ weighed weight places.now rows.old };

    // The first k symbols are the data.
    ghost first: { FirstLaw table };

    // Two codewords of one k that agree at k places are equal.
    ghost second: { SecondLaw table };

    ghost weighs: { WeightLaw table weight };
}

// Of any code, two codewords of shares that agree in k shares are equal.
pub fn words_agree<C: Code>()
    ensures { WordsLaw C.Code.table }
{}
