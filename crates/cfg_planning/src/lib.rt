// What a select plans for each target of its cases: which inputs are shared, which are merged, and on which condition.
#![tactic(auto)]

pub mod planning;
