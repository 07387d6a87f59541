// The first collision of two climbs, over any hash.
#![tactic(auto)]

pub mod branch;
pub mod find;
pub mod laws;
mod search;
mod strings;
