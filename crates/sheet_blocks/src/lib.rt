// The lines of a sheet that come from the record alone: blocks and exits.
#![tactic(auto)]

pub mod blocks;
pub mod exits;
