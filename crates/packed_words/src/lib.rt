//! The packed words of the heap: what the number in a shared word means.
//!
//! Each kind of word has a value, its number, and the way back, exact in both directions. Bit 0 is
//! the lowest bit of a word. Where a field is written as an index plus 1, 0 stands for nothing.
#![tactic(auto)]

pub mod active;
pub mod anchor;
pub mod head;
pub mod info;
pub mod laws;
pub mod prefix;
pub mod shelf;
pub mod widths;
