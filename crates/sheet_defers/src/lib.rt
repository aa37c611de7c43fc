// The lines of deferred edges.
#![tactic(auto)]

pub mod conditions;
pub mod inputs;
pub mod lines;
