//! Parts of traces that are made.

use std::alloc::AllocError;

/// Allocations into so many registers: into register `k`, of `words + more * k` words that are filled from `k` on.
pub(crate) fn push_allocations(
    text: &mut String,
    registers: u32,
    words: u32,
    more: u32,
) -> Result<(), AllocError> {
    for k in 0..registers {
        let words = more.saturating_mul(k).saturating_add(words);
        write!(text, "a {k} {words} {k}\n")?;
    }
    Ok(())
}

/// Frees of the registers from one on, up to another one.
pub(crate) fn push_frees(text: &mut String, first: u32, end: u32) -> Result<(), AllocError> {
    for k in first..end {
        write!(text, "f {k}\n")?;
    }
    Ok(())
}
