//! Traces with frames and turns to spare and without shelves: whatever order their threads make their
//! steps in, they have one report, and through caches one number of hits.
#![tactic(auto)]

pub mod laws;
pub mod through;
