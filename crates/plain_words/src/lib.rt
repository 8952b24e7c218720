//! Memory of an allocator as plain words, which are held by tokens of no bytes.
#![tactic(auto)]

mod block;
mod plain;
mod room;

pub use plain::{PlainWords, Start};
pub use room::{Backing, Room};
