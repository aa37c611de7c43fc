// The lines of a sheet as text, by their leads; line 1; all of them.
#![tactic(auto)]

pub mod lines;
