// Images: a square laid out with the trees of its rows and the data tree.
#![tactic(auto)]

pub mod lay_out;
