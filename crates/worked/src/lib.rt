//! The worked examples: one table of them, proved by computation on the definitions that the contracts cite.
#![tactic(auto)]

pub mod table;
