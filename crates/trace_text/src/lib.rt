//! Traces as text: what a trace is, the one canonical text of each, the reader and the printer.
#![tactic(auto)]

mod canonical;
pub mod fault;
mod fields;
mod kinds;
pub mod laws;
pub mod limits;
mod lines;
pub mod numbers;
pub mod printing;
pub mod reading;
mod stage;
pub mod text;
pub mod trace;
