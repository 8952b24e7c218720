//! Words that change in atomic steps under a rule, and ranges of them that a step takes out, as plain memory of whoever
//! has the token.
#![tactic(auto)]

mod region;
mod shared;
mod steps;

pub use region::{Closed, Region};
pub use shared::{Play, RegionRule, Seat, Shared};
