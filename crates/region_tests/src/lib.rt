//! Tests of memory as plain words, and of words that an atomic step takes out of a region: of a lock in the first word
//! of a region, over the others, which its holder has as a slice. It is the smallest user of a region.
#![tactic(auto)]

pub mod lock;
#[cfg(test)]
mod locks;
#[cfg(test)]
mod rooms;
pub mod rule;
