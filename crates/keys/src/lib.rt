//! Keys of 1 to 32 bytes: their bits, their order, where two of them part, and what a node keeps of one.
#![tactic(auto)]

pub mod comparison;
pub mod key;
pub mod partial;
pub mod zeros;
