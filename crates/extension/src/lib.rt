// The extended square: k by k shares of data become w by w, w being 2k, so that every row and every column is a codeword.
#![tactic(auto)]

pub mod fill;
pub mod laws;
mod lengths;
