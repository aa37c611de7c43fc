// What became of each target, as the cases of a select: filled in, or split by the bundle that was claimed.
#![tactic(auto)]

pub mod cases;
