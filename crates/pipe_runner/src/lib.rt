//! A run of a pipeline over a heap: senders that send messages beside each other in rounds, and a receiver
//! beside them that folds what it takes, and drains the pipe at the end.
#![tactic(auto)]

pub mod calls;
pub mod closing;
pub mod receiver;
pub mod rounds;
pub mod row;
pub mod run;
pub mod sender;
mod whole;
