//! What the commands of the program are made of, without a heap: the words that they are, the reading of a
//! whole input, the writing of a whole text, the statuses that a run ends with, and the summary of a
//! workload.
#![tactic(auto)]

pub mod command;
pub mod exit;
pub mod input;
pub mod output;
pub mod parsing;
pub mod status;
pub mod stop;
pub mod summary;
pub mod tally;
pub mod wide;
