//! Scripts of calls on a heap: a hand of blocks, the calls on it, whole or step by step, rows of them, and
//! random scripts on two heaps beside each other, of which one has whole calls and the other has steps; and scripts
//! of calls on a store.
#![tactic(auto)]

pub mod alone;
pub mod brought;
pub mod compare;
pub mod hand;
pub mod random;
pub mod request;
mod script;
mod side;
pub mod stepped;
pub mod stores;
pub mod sums;
pub mod whole;
