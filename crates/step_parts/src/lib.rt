//! The parts of a caller's way through the heap: at a superblock, at a stack, at the descriptors and the hazard words, at a
//! partial superblock, and at a large block, a usable word or a shelf. Each says of its points what the next step does,
//! where it leads, and how the part is left.
#![tactic(auto)]

pub mod hazard;
pub mod large;
pub mod partial;
pub mod stack;
pub mod superblock;
