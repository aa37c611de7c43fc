// What is done at one region, outside of the cycle: a claim by the region's state, and what its control instruction asks for.
#![tactic(auto)]

pub mod claim;
pub mod inst;
