//! Magazines of plain memory in front of a heap: the memory that a caller has given back stays out with its
//! pass, and is given again without a step on a shared word.
#![tactic(auto)]

pub mod cache;
pub mod laws;
mod page;
pub mod paged;
mod passes;
pub mod piece;
pub mod sizes;
