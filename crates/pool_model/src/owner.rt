//! Who owns a live block.

/// Who owns a live block: the caller that was given it or took it, or the shelf that it lies on.
#[derive(Clone, Copy, Debug, PartialEq, Eq)]
pub enum Owner {
    Caller(u32),
    Shelf(u8),
}
