// The words of a sheet, from what nesting leaves in the lent words: the lines of its regions and nodes, its defer lines, and line 1.
#![tactic(auto)]

pub mod first_line;
pub mod leftover;
pub mod pieces;
pub mod whole;
