//! The script of the command `store`: a list and a record in the blocks of one caller of a heap, and the
//! text that tells of them.
#![tactic(auto)]

mod calls;
pub mod heap;
pub mod script;
pub mod told;
