// Parts of a record's text: lists of numbers and of values in a line, instructions and blocks.
#![tactic(auto)]

pub mod blocks;
pub mod lists;
