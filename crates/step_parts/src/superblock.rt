//! Superblocks: the steps that take, hand out and give back the blocks of one superblock.
//!
//! A superblock fills a frame with blocks of one size class. Its anchor says which block is the
//! first available one, and how many free blocks nobody has reserved; the free blocks are linked,
//! from that one on, by their prefix words. The algorithm is that of Maged M. Michael, "Scalable
//! Lock-Free Dynamic Memory Allocation" (PLDI 2004).

mod anchors;
pub mod exit;
mod follow;
pub mod laws;
pub mod point;
mod words;
