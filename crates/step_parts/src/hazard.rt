//! Hazard words, the stack of available descriptors, and the descriptors that a caller retired.
//!
//! Before a caller takes the top descriptor, it stores its name in its own hazard word, and loads
//! the head again. A descriptor that is not needed any more is retired, and goes back to the stack
//! only after its caller has read every hazard word and none of them named it. So a caller that is
//! about to take the top descriptor never takes one that was away meanwhile, and came back with
//! another one below it. The rule is that of Maged M. Michael, "Safe Memory Reclamation for Dynamic
//! Lock-Free Objects Using Atomic Reads and Writes" (PODC 2002), by which his "Scalable Lock-Free
//! Dynamic Memory Allocation" (PLDI 2004) keeps its descriptors.

pub mod exit;
mod follow;
pub mod held;
pub mod laws;
pub mod limits;
pub mod point;
pub mod retired;
