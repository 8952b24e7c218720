//! A lane of a trace: each operation as requests, each of them served by a whole call, or by its atomic steps.
#![tactic(auto)]

pub mod lane;
pub mod laws;
pub mod request;
mod serve;
pub mod work;
