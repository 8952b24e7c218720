//! The limits of a trace, and the bytes that its text is made of.

use heap_geometry::limits::MAX_CALLERS;

/// How many registers a lane has.
pub const REGISTERS: u16 = 1024;

/// The most lanes of a trace, since each lane is a caller of the heap.
pub const MAX_LANES: u32 = MAX_CALLERS;

/// The most steps of one order run.
pub const ORDER_MOST: u32 = 1_000_000;

/// The most bytes of a text.
pub const MAX_INPUT: usize = 67_108_864;

/// The byte between two fields of a line.
pub const SPACE: u8 = b' ';

/// Another byte that may stand between two fields.
pub const TAB: u8 = b'\t';

/// The byte at the end of a line.
pub const LINE_FEED: u8 = b'\n';

/// The byte that may stand before the line feed.
pub const CARRIAGE_RETURN: u8 = b'\r';

/// The last byte that may be printed. The first is `SPACE`.
pub const LAST_PRINTABLE: u8 = b'~';

/// The byte that begins a comment.
pub const COMMENT: u8 = b'#';

/// The digit that begins no number but 0.
pub const ZERO: u8 = b'0';
