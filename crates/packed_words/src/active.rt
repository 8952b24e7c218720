//! The active word of a processor heap: the superblock that it allocates from.

ghost use Rattle.std.specs.Prelude.{◌≡◌, Some};
ghost use Rattle.packed_words.specs.Fields.{Reads};
ghost use Rattle.packed_words.specs.Active.{IsActiveWord, active_word, active_of};

use crate::widths::{CREDIT_BITS, DESC_LIMIT};

const CREDIT_MASK: u64 = (1 << CREDIT_BITS) - 1;

/// What an active word says.
#[derive(Clone, Copy, Debug, PartialEq, Eq)]
pub enum ActiveWord {
    /// The heap has no active superblock.
    Null,
    /// The superblock of this descriptor is active, and `credits + 1` of its blocks may be reserved.
    /// Credits are below `2^CREDIT_BITS`.
    Held { desc: u16, credits: u8 },
}

impl ActiveWord {
    /// The word that says it.
    pub fn pack(self) -> u64
        requires { IsActiveWord self }
        ensures word { result ≡ active_word self }
        ensures back { active_of result ≡ Some self }
    {
        match self {
            ActiveWord::Null => 0,
            ActiveWord::Held { desc, credits } => {
                u64::from(credits) | (u64::from(desc) + 1) << CREDIT_BITS
            }
        }
    }

    /// What a word says; `None` where it is no active word.
    pub fn unpack(word: u64) -> Option<ActiveWord>
        ensures value { result ≡ active_of word }
        ensures exact { Reads IsActiveWord active_word word result }
    {
        let above = word >> CREDIT_BITS;
        if word == 0 {
            Some(ActiveWord::Null)
        } else if above >= 1 && above <= DESC_LIMIT {
            Some(ActiveWord::Held {
                desc: (above - 1) as u16,
                credits: (word & CREDIT_MASK) as u8,
            })
        } else {
            None
        }
    }
}
