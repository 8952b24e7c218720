//! What follows of a sound state: which events a call has made so far and at its end, how many steps a call takes and how
//! many exchanges are lost and won, and who is the first to use a piece of the arena.
#![tactic(auto)]

pub mod bounds;
pub mod events;
pub mod uses;
