//! What the calls of a plain pool answer.

/// The answer of an allocation.
#[derive(Clone, Copy, Debug, PartialEq, Eq)]
pub enum PlainAlloc {
    /// A block with so many usable words, at an arena word.
    Given { place: u32, words: u32 },
    /// No block that would serve can be given.
    Refused,
    /// More words than the largest block has.
    TooLarge,
}

/// The answer of a call that puts a block on a shelf.
#[derive(Clone, Copy, Debug, PartialEq, Eq)]
pub enum PlainPut {
    Put,
    /// A block lies there already.
    Full,
}

/// The answer of a call that takes a block from a shelf.
#[derive(Clone, Copy, Debug, PartialEq, Eq)]
pub enum PlainTake {
    /// The block that lay there, with its usable words.
    Got { place: u32, words: u32 },
    Empty,
}
