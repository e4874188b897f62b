//! What a store of keys is, and why a call is refused. The index and every layer rest on this alone.
#![tactic(auto)]

pub mod filing;
pub mod reading;
pub mod refusal;
