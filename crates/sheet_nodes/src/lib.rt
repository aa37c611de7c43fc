// The lines of nodes: a cell's own lines, those of the lists inside it, and a list cell by cell.
#![tactic(auto)]

pub mod cell;
pub mod nodes;
