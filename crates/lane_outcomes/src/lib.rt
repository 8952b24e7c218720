//! The lanes of a trace over a heap: their outcomes, what it means that outcomes fit a history, also
//! through caches, and the text of the report.
#![tactic(auto)]

pub mod cached_laws;
pub mod laws;
pub mod live;
pub mod outcome;
pub mod registers;
pub mod report;
