//! The search: where a key stands in a node, with at most one key fetched, and what a search down a whole tree gives.
//! Inner to the index: nothing here reads a store.
#![tactic(auto)]

pub mod candidate;
pub mod law;
pub mod neighbour;
pub mod order;
pub mod place;
pub mod sweep;
