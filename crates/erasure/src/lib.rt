// The two half-rate erasure codes: k shares are encoded to 2k, and any k of those give back all.
#![tactic(auto)]

pub mod calls;
pub mod code;
mod combine;
pub mod complete;
mod given;
pub mod kinds;
pub mod limits;
pub mod places;
pub mod refusal;
pub mod rows;
mod table;
mod weigh;
