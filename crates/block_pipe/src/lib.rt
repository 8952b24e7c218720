//! A pipeline of blocks: each sender puts its blocks on its own shelves in turn and sends a note of each
//! through one queue; the receiver takes the notes, and each block from the shelf that its note names.
#![tactic(auto)]

pub mod closing;
pub mod laws;
pub mod log;
pub mod note;
pub mod opening;
pub mod pipe;
pub mod receiver;
pub mod receiving;
pub mod rule;
pub mod sender;
pub mod sending;
pub mod tally;
