//! How a test says what it expects.

use std::process::Abort;

/// It holds; the number tells one row of a test from the others.
pub fn expect<R: Abort>(rt: &R, holds: bool, row: u64) {
    assert!(rt; holds, "at {row}");
}
