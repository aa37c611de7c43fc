// A place in the words of a sheet and one in its text; a number or a value read at the one and put at the other.
#![tactic(auto)]

pub mod cursor;
