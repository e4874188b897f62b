//! Parts of a key: what each is worth, how it is written, and that the keys have the order of the values.
#![tactic(auto)]

pub mod class;
pub mod day;
pub mod minute;
pub mod pair;
pub mod part;
pub mod tariff;
