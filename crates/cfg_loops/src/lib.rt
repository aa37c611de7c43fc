// A claimed region with a back edge to itself becomes a loop in a wrapper region.
#![tactic(auto)]

pub mod exits;
pub mod inputs;
pub mod loops;
