//! Partial superblocks: the steps that take one, keep one, and remove one that became empty.
//!
//! A superblock is partial where blocks of it can be reserved and its descriptor stands in no active
//! word. Each processor heap keeps one for each class in a slot; the others stand on the list of
//! their class. Who takes one makes it its own processor heap's, and grants itself blocks of it. The
//! algorithm is that of Maged M. Michael, "Scalable Lock-Free Dynamic Memory Allocation" (PLDI
//! 2004).

pub mod exit;
mod follow;
mod grants;
pub mod laws;
pub mod point;
mod words;
