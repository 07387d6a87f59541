// Records: how blocks and proofs lie in bytes.
#![tactic(auto)]

mod body;
pub mod due;
pub mod kind;
pub mod numbers;
mod range;
pub mod read;
pub mod reader;
pub mod record;
pub mod refusal;
pub mod write;
