// What names a block: its header, and the lengths, cells and lines that follow from it.
#![tactic(auto)]

pub mod cell;
pub mod header;
pub mod lengths;
pub mod make;
pub mod measure;
pub mod refusal;
