// The cycle: a claim structurizes its region, and a region claims its targets. What falls is the number of regions not begun.
#![tactic(auto)]

pub mod claims;
