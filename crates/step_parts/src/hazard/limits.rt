//! How many words a scan reads, and how many descriptors a caller holds retired.

use heap_geometry::limits::MAX_CALLERS;

/// The most hazard words of a heap, one for each caller.
pub const HELD_MOST: usize = MAX_CALLERS as usize;

/// The most retired descriptors of one caller: one more than the hazard words, so that there is
/// always one that none of them names when the list is full.
pub const RETIRED_MOST: usize = HELD_MOST + 1;
