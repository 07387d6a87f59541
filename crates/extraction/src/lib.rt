// A collision from an accepted proof against a block that is correctly extended.
#![tactic(auto)]

mod at_claim;
mod at_witness;
mod compare;
mod comparison;
pub mod extract;
mod lengths;
mod rebuild;
mod shares;
