//! The names of the shared words, their order in the table, and the actions on one word.
//!
//! All that the callers of a heap share stands in one table of words of 64 bits. A word is spoken
//! of by its name; a `Layout` says where it stands in a heap of given numbers.
#![tactic(auto)]

pub mod action;
mod group;
pub mod laws;
pub mod layout;
pub mod limits;
pub mod name;
pub mod onward;
pub mod seat;
