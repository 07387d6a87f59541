// Digests of leaves and nodes, and climbs along a path, over any hash.
#![tactic(auto)]

pub mod climb;
pub mod node;
