// Whole trees laid out in a buffer, leaf digests first and root last, over any hash.
#![tactic(auto)]

pub mod cut;
pub mod entry;
pub mod grow;
pub mod size;
