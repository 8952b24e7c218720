//! Large blocks and shelves: the steps that take and give back a run of units, that write and read
//! the words of a block, and that hand a block over.
//!
//! A large block is a run of units, which lie in the arena behind the frames. One word has a bit for
//! each unit, which is 1 where the unit is taken. A block is handed over on a shelf, which is a word
//! that names one block or none.

pub mod exit;
pub mod laws;
pub mod point;
pub mod run;
pub mod units;
pub mod want;
mod words;
