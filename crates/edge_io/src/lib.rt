//! The edges of the program: where its bytes come from, where they go, and who may look on.
//!
//! `source`, `sink` and `gate` say what the program may count on. `memory` and `steady` keep the bytes
//! in memory and tell them to contracts; `real` wraps a reader and a writer of std, and tells none.
#![tactic(auto)]

mod calls;
pub mod faults;
pub mod gate;
pub mod laws;
pub mod memory;
pub mod real;
pub mod sink;
pub mod source;
pub mod steady;
