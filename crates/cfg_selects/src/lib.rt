// structurize_select_into: the cases of a select become its node and the set of what is deferred behind it.
#![tactic(auto)]

pub mod into;
