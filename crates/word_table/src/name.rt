//! The names of the shared words.

ghost use Rattle.std.specs.Prelude.{◌≡◌, ◌+◌};

/// The name of a shared word. Numbers count from 0.
#[derive(Clone, Copy, Debug, PartialEq, Eq)]
pub enum WordName {
    /// A word of the arena, in which the blocks lie.
    Arena(u32),
    /// The anchor of a descriptor's superblock.
    Anchor(u16),
    /// The descriptor below this one in the stack or the list that it stands in.
    Next(u16),
    /// Where a descriptor's superblock lies, and whose it is.
    Info(u16),
    /// The active superblock of a processor heap and a class.
    Active(u8, u8),
    /// The partial superblock that a processor heap keeps for a class.
    Slot(u8, u8),
    /// The head of a class's list of partial superblocks.
    ListHead(u8),
    /// The frame below this one in the stack of free frames.
    FrameNext(u16),
    /// The head of the stack of free frames.
    FrameHead,
    /// The head of the stack of available descriptors.
    DescHead,
    /// The descriptor that a caller guards.
    Hazard(u8),
    /// Which units are taken, a bit for each.
    Units,
    /// A shelf, on which a block is handed over.
    Shelf(u8),
}

/// The word that names a descriptor by its index plus 1.
pub fn name_of_desc(desc: u16) -> u64
    ensures { result ≡ desc + 1 }
{
    u64::from(desc) + 1
}
