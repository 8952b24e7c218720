//! The census of a closed heap: the blocks of each class, and the free frames and units.
//!
//! All callers of a closed heap are idle. So a block is reserved only where an active word offers it, and a
//! descriptor has a superblock exactly where its anchor says FULL or PARTIAL, or an active word names it: one
//! pass over the words counts all.
#![tactic(auto)]

pub mod census;
pub mod counting;
pub mod laws;
mod tallies;
