// Of the nesting state: lists of child nodes as cells, outputs of selects, lazy conditions, rewrites of the regions' inputs.
#![tactic(auto)]

pub mod cells;
pub mod conditions;
pub mod outputs;
pub mod rewrites;
