// Proofs of bad encoding as bytes.
#![tactic(auto)]

pub mod cut;
pub mod line;
pub mod proof;
pub mod read;
pub mod witness;
