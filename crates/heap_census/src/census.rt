//! What a closed heap holds.

use heap_geometry::limits::CLASSES;

/// How many classes there are.
pub const CLASS_COUNT: usize = CLASSES as usize;

/// The blocks of one class.
#[repr(C)]
#[derive(Clone, Copy, Debug, PartialEq, Eq)]
pub struct ClassCount {
    /// The blocks of all superblocks of the class.
    pub blocks: u64,
    /// Those that are free, and that no active word offers.
    pub free: u64,
    /// Those that are free and that an active word offers.
    pub reserved: u64,
    /// Those that are live.
    pub live: u64,
}

/// What a closed heap holds.
#[repr(C)]
#[derive(Clone, Copy, Debug, PartialEq, Eq)]
pub struct Census {
    /// The blocks of each class.
    pub per_class: [ClassCount; CLASS_COUNT],
    /// The frames on the stack of free frames.
    pub free_frames: u32,
    /// The units that no large block has.
    pub free_units: u32,
}
