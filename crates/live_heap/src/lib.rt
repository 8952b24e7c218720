//! The heap on shared words: threads allocate and free on one table, each with a pass of its own, and
//! none of them ever waits for another.
//!
//! The table's rule is that its words, the errands of all passes and the longest list of events that a
//! pass has seen are a state of the machine that its callers reach from the opening. So every step of
//! every thread is a step of that machine, in whatever order the hardware makes them.
//!
//! The table lies in a region of memory whose arena isn't written at opening. A frame or a unit is filled
//! with 0 by the pass that is the first to use it (laying.rt); until then its words count as 0 for the
//! machine, and no step is on one of them.
//!
//! Calls on usable words take a block's words out of the region, read or write them as plain memory and give
//! them back (lending.rt, words.rt). For the machine each is read or written as they come back.
#![tactic(auto)]

pub mod answers;
mod begins;
pub mod block;
mod calls;
pub mod closed;
mod fills;
pub mod heap;
pub mod laws;
mod laying;
mod lending;
mod opened;
pub mod pass;
pub mod placement;
pub mod plain;
mod plays;
pub mod shelves;
mod shelving;
mod slices;
mod small;
mod steps;
mod strides;
pub mod view;
mod walks;
mod words;
