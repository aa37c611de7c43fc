// Look-ups, and lazy conditions made real.
#![tactic(auto)]

pub mod look_up;
pub mod materialize;
