// SHA3-256.
#![tactic(auto)]

pub mod digest;
mod permutation;
mod sponge;
