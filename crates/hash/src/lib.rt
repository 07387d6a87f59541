// The interface of a hash. Everything above is written and proved against it alone, for every hash.
#![tactic(auto)]

pub mod blocks;
pub mod digest;
pub mod limits;
pub mod message;
pub mod refusal;
