// The checking cache: a layer over any store that shows only what verifies under a header, and keeps the answers that came last.
#![tactic(auto)]

pub mod cache;
mod keeping;
pub mod kept;
