// Edges deferred as bundles: to a region, to a Return; a bundle's inputs and its condition in a set. A claimed region appended.
#![tactic(auto)]

pub mod append;
pub mod bundles;
