// Listed sheets, beside what nesting leaves in lent words and prints.
#![tactic(auto)]

pub mod sheets;
