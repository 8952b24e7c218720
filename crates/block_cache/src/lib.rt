//! Magazines in front of a heap: a caller keeps blocks that it has freed, and is given them again
//! without a step on a shared word.
#![tactic(auto)]

pub mod cache;
mod counts;
mod flushes;
pub mod laws;
mod lends;
pub mod magazines;
mod slices;
