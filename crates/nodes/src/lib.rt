//! The nodes of the index: what a node holds, the tree that a table of nodes holds, and when its partial keys are true.
//! Inner to the index: nothing here reads a store.
#![tactic(auto)]

pub mod node;
pub mod shape;
pub mod table;
