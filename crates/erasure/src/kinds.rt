// The two codes. Each has its `weights`, and the trait provides none: the weights of a code need not be products of factors.
ghost use Rattle.codes.specs.Code.{cauchy, cauchy_scale, plain_scale, polynomial, scaled_weight};
ghost use Rattle.codes.proofs.Polynomial as ProofsPolynomial;
ghost use Rattle.codes.proofs.Cauchy as ProofsCauchy;

use crate::code::Code;
use crate::weigh::{Scaled, weigh};
use galois::element::{inverse, product};

// Symbol i is P(i), P being the polynomial of degree below k with P(j) equal to data byte j.
#[derive(Clone, Copy, Drop)]
pub struct Polynomial;

impl Scaled for Polynomial {
    ghost factor = { plain_scale };

    ghost units = { ProofsPolynomial.scale_unit };

    fn factor(_k: usize, _i: usize) -> u8 {
        1
    }
}

impl Code for Polynomial {
    const KIND: u8 = 1;

    ghost KIND = { 1 };

    ghost table = { polynomial };

    ghost weight = { scaled_weight plain_scale };

    ghost first = { ProofsPolynomial.first_law };

    ghost second = { ProofsPolynomial.second_law };

    ghost weighs = { ProofsPolynomial.weight_law };

    fn weights(places: &[u16], rows: &mut [u8]) {
        weigh::<Polynomial>(places, rows);
    }
}

// The data, and from k on symbol i is the sum over j of data byte j divided by (i xor j).
#[derive(Clone, Copy, Drop)]
pub struct Cauchy;

impl Scaled for Cauchy {
    ghost factor = { cauchy_scale };

    ghost units = { ProofsCauchy.scale_unit };

    // The product over m below k, other than i, of 1 / (i xor m). It is no `denominator` of places: from k on, i is none of them.
    fn factor(k: usize, i: usize) -> u8 {
        let mut all = 1;
        for m in 0..k {
            if m != i {
                all = product(inverse((i ^ m) as u8), all);
            }
        }
        all
    }
}

impl Code for Cauchy {
    const KIND: u8 = 2;

    ghost KIND = { 2 };

    ghost table = { cauchy };

    ghost weight = { scaled_weight cauchy_scale };

    ghost first = { ProofsCauchy.first_law };

    ghost second = { ProofsCauchy.second_law };

    ghost weighs = { ProofsCauchy.weight_law };

    fn weights(places: &[u16], rows: &mut [u8]) {
        weigh::<Cauchy>(places, rows);
    }
}
