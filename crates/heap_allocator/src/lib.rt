//! An allocator over a heap, for collections.
#![tactic(auto)]

mod allocator;
mod desk;
mod mover;
mod piece;
mod slot;

pub use allocator::{HeapAllocator, Refused};
