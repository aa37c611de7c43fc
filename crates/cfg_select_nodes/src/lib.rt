// A select's cases and its node: which case is convergent, a region for each case, the node defined, inputs replaced.
#![tactic(auto)]

pub mod cases;
pub mod define;
