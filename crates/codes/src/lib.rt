// What is true of the codes: theorems alone, each the contract of a function that has nothing to do. The calls that encode and recover
// stand in the crate above.
#![tactic(auto)]

ghost use Rattle.codes.specs.Code.{CauchyLaw, FirstLaw, PolynomialLaw, SecondLaw, WeightLaw, cauchy, cauchy_scale, plain_scale, polynomial, scaled_weight};
ghost use Rattle.codes.specs.Grid.{GridLaw, SquareValues};
ghost use Rattle.codes.specs.Values.{Values};

// The polynomial code has the two laws, recovers by its weights, and its symbols are the values of a polynomial.
pub fn polynomial_stands()
    ensures first { FirstLaw polynomial }
    ensures second { SecondLaw polynomial }
    ensures weights { WeightLaw polynomial (scaled_weight plain_scale) }
    ensures words { PolynomialLaw }
{}

// The Cauchy code has the two laws, recovers by its weights, and its symbols are the sums of quotients.
pub fn cauchy_stands()
    ensures first { FirstLaw cauchy }
    ensures second { SecondLaw cauchy }
    ensures weights { WeightLaw cauchy (scaled_weight cauchy_scale) }
    ensures words { CauchyLaw }
{}

// Of any table, rows and then columns give what columns and then rows give.
pub fn grid_stands()
    ensures law { GridLaw }
    ensures values { SquareValues }
{}

// Worked values.
pub fn values_stand()
    ensures { Values }
{}
