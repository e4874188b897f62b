//! How the tree of an index grows by a record: what its growth is, the plan of its reads, and the writes. Inner to the index:
//! nothing here reads a store.
#![tactic(auto)]

pub mod commit;
pub mod law;
pub mod need;
pub mod path;
pub mod plan;
pub mod shift;
pub mod split;
