// The memory store: a store over a lent image.
#![tactic(auto)]

pub mod memory;
mod read;
