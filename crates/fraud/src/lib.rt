// Checking proofs of bad encoding.
#![tactic(auto)]

pub mod charge;
pub mod check;
mod claim;
mod judge;
pub mod numbers;
pub mod refusal;
mod shown;
mod sums;
mod witnesses;
mod word;
