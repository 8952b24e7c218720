//! What is sound: the rule of the words, errands and events that every step keeps.
#![tactic(auto)]

pub mod laws;
