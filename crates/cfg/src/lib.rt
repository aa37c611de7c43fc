// structurize_func: from a record that stands in the words to its nested form, whole, closed or left over.
#![tactic(auto)]

pub mod func;
