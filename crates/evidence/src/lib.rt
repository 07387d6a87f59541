// Evidence that a share stands at a cell of a committed square.
#![tactic(auto)]

mod block;
pub mod check;
pub mod write;
