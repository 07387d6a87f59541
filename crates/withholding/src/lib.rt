// Withholding: a layer over any store that shows nothing at some cells.
#![tactic(auto)]

pub mod withholding;
