//! The pool of live blocks that an allocator keeps, as a list and a history of events, apart from any
//! allocator.
#![tactic(auto)]

pub mod event;
pub mod laws;
pub mod owner;
