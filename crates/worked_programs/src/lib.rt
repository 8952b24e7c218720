//! Worked programs over the heap, each with the contract that it is proved to meet: one that embeds a heap,
//! one of rounds through a cache, one of two threads with a pipe between them, a pipe whose calls are asked
//! for one by one, and one of collections.
#![tactic(auto)]

pub mod collections;
pub mod embedded;
pub mod pipes;
pub mod relay;
pub mod reuse;
