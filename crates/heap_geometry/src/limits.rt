//! The limits of a heap, and the sizes that are the same in every heap.

/// The words of a frame, which one superblock fills.
pub const FRAME_WORDS: u32 = 4096;

/// The words of a unit. A large block is a run of units.
pub const UNIT_WORDS: u32 = 2048;

/// How many size classes there are. A class `c` has blocks of `2^(c+1)` words.
pub const CLASSES: u8 = 11;

/// The most blocks that fill a frame. They are of class 0, and have two words each.
pub const MAX_COUNT: u32 = FRAME_WORDS / 2;

/// The most usable words of a small block.
pub const SMALL_MOST: u32 = 2047;

/// The units of the least large block, which has more usable words than a small one can have.
pub const LEAST_UNITS: u32 = (SMALL_MOST + 1) / UNIT_WORDS + 1;

/// The most usable words of a large block.
pub const LARGE_MOST: u32 = 131_071;

/// The most frames of a heap.
pub const MAX_FRAMES: u32 = 4096;

/// The most processor heaps of a class.
pub const MAX_HEAPS: u32 = 16;

/// The most units of a heap, which are the bits of one word.
pub const MAX_UNITS: u32 = 64;

/// The most callers of a heap.
pub const MAX_CALLERS: u32 = 16;

/// The most turns of one caller. A turn is one pass of a small allocation through the active, a
/// partial and a new superblock, and takes at most one block from an anchor. Those of all callers are
/// fewer than the tags that an anchor can have.
pub const MAX_TURNS: u64 = 0xf_ffff_ffff;

/// How many places there are to hand a block over.
pub const SHELVES: u8 = 64;

/// A call makes fewer atomic steps than this between two that lose an exchange or clear an empty superblock.
pub const CALL_STEPS: u64 = 2200;
