//! The fixed numbers of the heap: its limits, its size classes, and where its blocks lie.
//!
//! Sizes and places are in 64-bit words of the arena, not in bytes.
#![tactic(auto)]

pub mod geometry;
pub mod laws;
pub mod limits;
pub mod need;
pub mod place;
