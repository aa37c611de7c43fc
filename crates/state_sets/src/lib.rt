// Of the nesting state: deferred edge bundles by number, and their sets.
#![tactic(auto)]

pub mod sets;
