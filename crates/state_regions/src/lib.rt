// Of the nesting state: the states of the record's regions, and the cases of the select under way.
#![tactic(auto)]

pub mod cases;
pub mod regions;
