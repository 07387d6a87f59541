// Committing to a square: the trees of its lines, their roots, and the data root over them.
#![tactic(auto)]

mod bands;
pub mod cells;
pub mod commit;
pub mod line;
pub mod rooms;
pub mod roots;
mod run;
mod stride;
pub mod values;
