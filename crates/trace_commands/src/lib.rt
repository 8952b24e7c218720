//! The commands of the program, on traces that are read or made: from the words and the input to the text,
//! the status, and the heap that a run leaves.
//!
//! `run` is the top call, and its contract carries the program's theorem.
#![tactic(auto)]

mod answer;
mod cached;
mod census;
pub mod closing;
pub mod driven;
pub mod laws;
mod made;
mod piped;
pub mod run;
mod steps;
mod stored;
mod threaded;
pub mod told;
