//! What an entry reads before it writes: a plan of the entries that growth needs, made over any store, and the whole of an
//! entry once its place is known. Inner to the index.
#![tactic(auto)]

pub mod enter;
pub mod entry;
pub mod law;
pub mod plan;
pub mod step;
