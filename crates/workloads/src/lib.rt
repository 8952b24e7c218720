//! Workloads of this project's own: traces that are made from a kind, a size and a number.
#![tactic(auto)]

mod draws;
pub mod kind;
mod larson;
pub mod laws;
pub mod making;
mod pipeline;
mod scalability;
mod threadtest;
