// Reading the words of a record, in layers: words, values and instructions, terminators (document 01, refusals 4 and 5).
#![tactic(auto)]

pub mod kinds;
pub mod terminators;
pub mod values;
pub mod words;
