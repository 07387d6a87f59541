// Merkle trees: what they are, how a climb leads to a root and what two climbs that end alike show. Definitions and laws, for every hash.
#![tactic(auto)]

pub mod laws;
