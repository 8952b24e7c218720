//! The head of a tagged stack.

ghost use Rattle.std.specs.Prelude.{◌≡◌, ◌^◌, ◌<◌};
ghost use Rattle.packed_words.specs.Head.{HeadFields, IsHead, head_word, head_of};
ghost use Rattle.packed_words.specs.declared.widths.TheConstants.{TOP_BITS, HEAD_TAG_BITS};

use crate::widths::TOP_BITS;
use std::marker::Model;

const TOP_MASK: u64 = (1 << TOP_BITS) - 1;

/// The head of a tagged stack.
#[derive(Clone, Copy, Debug, PartialEq, Eq)]
pub struct Head {
    top: u16,
    tag: u64,
}

impl Model for Head {
    ghost Value = { HeadFields };

    ghost view = { λ h. record { top = h.top; tag = h.tag } };

    ghost invariant = { λ h. IsHead (record { top = h.top; tag = h.tag }) };

    ghost inverse = { λ h. record { top = h.top; tag = h.tag } };
}

impl Head {
    /// The head with this top, 0 for an empty stack and else the index on top plus 1, and this tag.
    pub fn new(top: u16, tag: u64) -> Head
        requires { tag < 2 ^ HEAD_TAG_BITS }
        ensures { result ≡ record { top = top; tag = tag } }
    {
        Head { top, tag }
    }

    /// 0 for an empty stack, else the index on top plus 1.
    pub fn top(self) -> u16
        ensures value { result ≡ self.top }
        ensures fits { result < 2 ^ TOP_BITS }
    {
        self.top
    }

    /// How often the stack was popped, cut to its bits.
    pub fn tag(self) -> u64
        ensures value { result ≡ self.tag }
        ensures fits { result < 2 ^ HEAD_TAG_BITS }
    {
        self.tag
    }

    /// The head's word.
    pub fn pack(self) -> u64
        ensures word { result ≡ head_word self }
        ensures back { head_of result ≡ self }
    {
        u64::from(self.top) | self.tag << TOP_BITS
    }

    /// The head that a word says. Every word says one.
    #[tactic(auto, unfolding(crate::specs::Head::head_word, crate::specs::Head::head_of))]
    pub fn unpack(word: u64) -> Head
        ensures value { result ≡ head_of word }
        ensures rule { IsHead result }
        ensures back { head_word result ≡ word }
    {
        Head {
            top: (word & TOP_MASK) as u16,
            tag: word >> TOP_BITS,
        }
    }
}
