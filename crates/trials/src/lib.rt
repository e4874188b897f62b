//! Tests of the crates below on examples: they prove their crate again, so they live apart.
#![tactic(auto)]

#[cfg(test)]
mod keys_tests;
#[cfg(test)]
mod parts_tests;
#[cfg(test)]
mod stores_tests;
pub mod worn;
