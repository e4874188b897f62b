//! Stores: the plan to read from; inner, until filing stores are offered: the card and the pocket to file in.
#![tactic(auto)]

mod card;
#[cfg(test)]
mod filing_tests;
mod grounds;
pub mod plan;
mod pocket;
mod row;
mod table;
