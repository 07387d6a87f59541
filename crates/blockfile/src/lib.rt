// Block files: a header, roots and groups of shares, opened without copying any of them.
#![tactic(auto)]

pub mod file;
pub mod find;
pub mod found;
pub mod index;
pub mod numbers;
pub mod open;
pub mod point;
pub mod refusal;
mod step;
mod walk;
