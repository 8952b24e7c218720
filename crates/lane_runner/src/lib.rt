//! Whole runs of a trace: its lanes on threads over a heap, each through a cache of its own, or on a machine in
//! the order that the trace gives.
#![tactic(auto)]

mod lanes;
pub mod laws;
pub mod run_core;
pub mod run_lanes;
