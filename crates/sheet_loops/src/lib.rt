// The two lines of a loop.
#![tactic(auto)]

pub mod kept;
pub mod lines;
