//! The statuses that a run ends with.

/// The whole report was written.
pub const REPORTED: u8 = 0;

/// The words are none of the program's commands.
pub const USAGE: u8 = 2;

/// The input is no text of a trace, and the line that says so was written.
pub const REFUSED: u8 = 3;

/// The source failed.
pub const READ_FAULT: u8 = 4;

/// The sink failed.
pub const WRITE_FAULT: u8 = 5;

/// Memory was not found.
pub const OUT_OF_MEMORY: u8 = 6;

/// The input has more bytes than a trace may have.
pub const TOO_MANY: u8 = 7;
