// What every layer shares: parts of byte slices, and how a call answers.
#![tactic(auto)]

pub mod misfit;
pub mod parts;
pub mod splice;
pub mod window;
