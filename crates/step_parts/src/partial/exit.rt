//! The exits by which a caller leaves a partial superblock.

use word_table::seat::{Seat, Site};

/// How a caller left a partial superblock. No step is made here.
///
/// `desc` is the superblock's descriptor.
#[derive(Clone, Copy)]
pub enum PartialExit {
    /// The slot was empty.
    SlotEmpty { seat: Seat },
    /// A block is reserved, and so many more with it.
    Granted { site: Site, more: u8 },
    /// The superblock that was taken is empty.
    TookEmpty { site: Site },
    /// The superblock stands in the slot, which was empty.
    SlotFilled { seat: Seat },
    /// The superblock stands in the slot, and this one stood there before.
    Displaced { seat: Seat, desc: u16 },
    /// The superblock does not stand in the slot.
    NotInSlot { seat: Seat },
    /// The superblock is taken out of the slot.
    Removed { seat: Seat, desc: u16 },
    /// The superblock that was popped from the list is empty.
    ListedEmpty { seat: Seat, desc: u16 },
    /// It is not.
    ListedPartial { seat: Seat, desc: u16 },
}
