//! The exits by which a caller leaves a superblock.

use word_table::seat::{Seat, Site};

/// How a caller leaves a superblock. It makes no step there.
///
/// `index` says which block of the superblock is meant. `stored` tells whether this call stored its
/// hazard word.
#[derive(Clone, Copy)]
pub enum BlockExit {
    /// There is no active superblock.
    WantsPartial { seat: Seat },
    /// The superblock is partial now, and has no keeper.
    Returned { site: Site, index: u16 },
    /// Another superblock is the active one: this new one is not needed.
    Discarded { site: Site },
    /// The block is handed out.
    Given { site: Site, index: u16 },
    /// The block is freed, and the superblock of this heap is empty.
    BecameEmpty { site: Site, heap: u8 },
    /// The block is freed, and the superblock, which was full, has no keeper.
    BecamePartial { site: Site, stored: bool },
    /// The block is freed.
    Pushed { seat: Seat, stored: bool },
}
