//! A heap that several owners share, with a place for each pass that an owner gives back. Once all passes lie there
//! the last owner can close it.
#![tactic(auto)]

mod places;
pub mod shared;
