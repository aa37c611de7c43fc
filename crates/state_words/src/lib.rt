// The nesting state, in the lent words behind the record and its index: a section for each table. Here: the sections, the head with
// its totals, counts of edges and values as words, on which the tables stand. Tables only gain at their end, and their records name only
// earlier records; sets of deferred edges lie in slots and change in place. There is no heap, and C lends one array: so tables are sections
// of it and records are named by number, here and in all crates of the state and of nesting. Their accessors take any number for an index.
#![tactic(auto)]

pub mod bundle_numbers;
pub mod defined;
pub mod edges;
pub mod handles;
pub mod sections;
pub mod values;
