// What was planned for a select's targets is put out: an input or an output for each value, a condition, a bundle for each target.
#![tactic(auto)]

pub mod emit;
