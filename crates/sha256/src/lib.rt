// SHA-256.
#![tactic(auto)]

mod compression;
pub mod digest;
mod message;
mod schedule;
