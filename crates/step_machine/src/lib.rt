//! The machine on one thread: the words of a heap, the errands of its callers, and the events that
//! their steps have made.
//!
//! One step of a caller is one action on one word, as its errand says. Which caller makes the next
//! step is the choice of whoever runs the machine, so that each order of the steps of several
//! threads is a run of it.
#![tactic(auto)]

pub mod first;
pub mod laws;
pub mod machine;
mod seen;
pub mod token;
