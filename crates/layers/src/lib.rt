//! Layers over any store: they show the keys of the store below by a map. Inner, until filing stores are offered: the way back, by
//! which a layer files; several maps put on one after the other; and a seal, which makes of a store that only reads one that is full.
#![tactic(auto)]

mod filing;
pub mod layer;
pub mod newest;
mod sealed;
pub mod turn;
mod views;
