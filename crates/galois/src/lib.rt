// The field of 256 elements: its laws, its operations on bytes, and those on shares that the codes are made of.
#![tactic(auto)]

pub mod bulk;
pub mod element;
