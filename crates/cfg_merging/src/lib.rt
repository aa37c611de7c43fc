// Deferred edges of a select's cases brought together: the targets of all of them, and the cases with their rewritings applied.
#![tactic(auto)]

pub mod rewriting;
pub mod targets;
