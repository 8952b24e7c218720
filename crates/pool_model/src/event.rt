//! What happens to a pool, one event at a time.

/// One event of a history. Places are arena words; words of a block count from 0, behind its prefix.
#[derive(Clone, Copy, Debug, PartialEq, Eq)]
pub enum Event {
    /// The caller was given a block that serves `need` usable words.
    Alloc {
        caller: u32,
        need: u32,
        place: u32,
    },
    /// The caller looked for a partly used superblock of the class, and found none.
    Looked {
        caller: u32,
        class: u8,
    },
    /// The caller was refused `need` usable words.
    Refuse {
        caller: u32,
        need: u32,
    },
    /// The caller gave its block back.
    Free {
        caller: u32,
        place: u32,
    },
    /// The caller wrote word `i` of its block.
    Write {
        caller: u32,
        place: u32,
        i: u32,
        v: u64,
    },
    /// The caller put its block on a shelf.
    Put {
        caller: u32,
        place: u32,
        shelf: u8,
    },
    /// The caller took the block from a shelf.
    Take {
        caller: u32,
        shelf: u8,
        place: u32,
    },
    /// The caller found a shelf empty.
    TakeNone {
        caller: u32,
        shelf: u8,
    },
}
