//! The prefix word of a block.

ghost use Rattle.std.specs.Prelude.{◌≡◌, ◌^◌, ◌<◌, Some};
ghost use Rattle.packed_words.specs.Fields.{Reads};
ghost use Rattle.packed_words.specs.Prefix.{IsPrefix, prefix_word, prefix_of, link_of};
ghost use Rattle.packed_words.specs.declared.widths.TheConstants.{AVAIL_BITS};

use crate::widths::{AVAIL_BITS, DESC_LIMIT, KIND_BITS};
use heap_geometry::limits::MAX_UNITS;

const LINK_MASK: u64 = (1 << AVAIL_BITS) - 1;

const KIND_MASK: u64 = (1 << KIND_BITS) - 1;

/// What stands before the words of a live block.
#[derive(Clone, Copy, Debug, PartialEq, Eq)]
pub enum Prefix {
    /// A block of this descriptor's superblock.
    Small { desc: u16 },
    /// A run of this many units, from 1 to `MAX_UNITS`.
    Large { units: u8 },
}

impl Prefix {
    /// The word that says it.
    pub fn pack(self) -> u64
        requires { IsPrefix self }
        ensures word { result ≡ prefix_word self }
        ensures back { prefix_of result ≡ Some self }
    {
        match self {
            Prefix::Small { desc } => u64::from(desc) << KIND_BITS,
            Prefix::Large { units } => u64::from(units) << KIND_BITS | 1,
        }
    }

    /// What a word says; `None` where it is the prefix of no live block.
    pub fn unpack(word: u64) -> Option<Prefix>
        ensures value { result ≡ prefix_of word }
        ensures exact { Reads IsPrefix prefix_word word result }
    {
        let kind = word & KIND_MASK;
        let above = word >> KIND_BITS;
        if kind == 0 && above < DESC_LIMIT {
            Some(Prefix::Small { desc: above as u16 })
        } else if kind == 1 && above >= 1 && above <= u64::from(MAX_UNITS) {
            Some(Prefix::Large { units: above as u8 })
        } else {
            None
        }
    }
}

/// The link in the prefix word of a free block: the index of the next free block of its superblock.
/// A word that is none is cut to the same bits.
pub fn link_of(word: u64) -> u16
    ensures value { result ≡ link_of word }
    ensures fits { result < 2 ^ AVAIL_BITS }
{
    (word & LINK_MASK) as u16
}
