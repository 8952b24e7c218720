//! The numbers of descriptors and of words that the largest heap has.

use heap_geometry::limits::{
    CLASSES, FRAME_WORDS, MAX_CALLERS, MAX_FRAMES, MAX_HEAPS, MAX_UNITS, SHELVES, UNIT_WORDS,
};
use packed_words::widths::CREDIT_BITS;

/// The most descriptors of a heap.
pub const MAX_DESCRIPTORS: u32 = CLASSES as u32 * (MAX_FRAMES + MAX_HEAPS + 2 * MAX_CALLERS)
    + MAX_CALLERS * (MAX_CALLERS + 1);

/// The most words of a heap's table.
pub const MAX_WORDS: u32 = FRAME_WORDS * MAX_FRAMES
    + UNIT_WORDS * MAX_UNITS
    + 3 * MAX_DESCRIPTORS
    + 2 * MAX_HEAPS * CLASSES as u32
    + CLASSES as u32
    + MAX_FRAMES
    + MAX_CALLERS
    + SHELVES as u32
    + 3;

/// The most blocks of a superblock that an active word offers at once.
pub const MOST_CREDITS: u16 = 1 << CREDIT_BITS;
