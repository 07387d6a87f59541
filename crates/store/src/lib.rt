// Stores of shares, and what is said of any store.
#![tactic(auto)]

pub mod question;
pub mod refusal;
pub mod store;
pub mod sweep;
pub mod taking;
