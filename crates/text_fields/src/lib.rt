// The fields of a sheet's line as text: items, conditions, and lists of each.
#![tactic(auto)]

pub mod fields;
