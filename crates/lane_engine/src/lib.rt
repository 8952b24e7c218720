//! What lanes run on: a machine on one thread, which makes the atomic steps of its callers; or something
//! that makes the whole calls of one caller, as a cache in front of a pass of a heap.
#![tactic(auto)]

pub mod begins;
pub mod calls;
pub mod grip;
pub mod over_cache;
pub mod over_core;
