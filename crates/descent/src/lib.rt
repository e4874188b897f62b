//! The descent: a search down the tree of a table, over a store, and the walk from where it ended. Inner to the index.
#![tactic(auto)]

pub mod descent;
pub mod law;
pub mod walk;
