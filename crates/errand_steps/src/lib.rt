//! A caller's errand: the points of all parts as one, what follows where a part is left, and what a
//! caller keeps beside its point.
//!
//! Each step of a caller is one action on one shared word. `plan` says which one, and `settle` makes
//! of what it found the errand that follows; `event` says what the step adds to the history, and
//! `answer` what it came to. The algorithm is that of Maged M. Michael, "Scalable Lock-Free Dynamic
//! Memory Allocation" (PLDI 2004).
#![tactic(auto)]

pub mod begin;
pub mod continuation;
pub mod count;
pub mod enter;
pub mod errand;
pub mod event;
pub mod laws;
pub mod next;
pub mod point;
pub mod reply;
pub mod told;
