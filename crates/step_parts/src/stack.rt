//! Stacks: the steps that pop and push free frames and partial superblocks.
//!
//! The free frames of a heap are a stack, and the partial superblocks of a class that no processor
//! heap keeps are another. The head of a stack names the index on top, and the next word of an
//! index the one below it; both name an index by the number plus 1, and nothing by 0. The head also
//! has a tag that each pop raises, so that an exchange of a head that was read before is lost where
//! another pop came between, even if the same index is on top again.

pub mod exit;
mod follow;
mod heads;
pub mod laws;
pub mod point;
mod words;
