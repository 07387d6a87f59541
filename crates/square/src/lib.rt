// The extended square: data extended by a code and committed to under a hash.
#![tactic(auto)]

pub mod extend;
