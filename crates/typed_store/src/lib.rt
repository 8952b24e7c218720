//! Records and a linked list inside the blocks of one caller of a heap.
//!
//! The links and the lengths stand among the words of the blocks. A store keeps nothing of them but the
//! tokens of its blocks, so what it holds is what the heap's one history says that the blocks contain.
#![tactic(auto)]

pub mod laws;
pub mod nodes;
mod records;
mod seeking;
pub mod slot;
pub mod store;
