//! A plain pool: live blocks in a map, with their events, one call after another. Each call is a
//! legal step of the history.
#![tactic(auto)]

pub mod answers;
mod changes;
mod live_block;
mod marks;
mod places;
pub mod pool;
