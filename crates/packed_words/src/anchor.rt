//! The anchor word of a superblock.

ghost use Rattle.std.specs.Prelude.{◌≡◌, ◌^◌, ◌<◌};
ghost use Rattle.packed_words.specs.Anchor.{IsAnchor, anchor_word, anchor_of, state_code, state_of};
ghost use Rattle.packed_words.specs.declared.widths.TheConstants.{AVAIL_BITS, COUNT_BITS, TAG_BITS};

use crate::widths::{AVAIL_BITS, COUNT_AT, COUNT_BITS, STATE_AT, STATE_BITS, TAG_AT};
use std::marker::Model;

const AVAIL_MASK: u64 = (1 << AVAIL_BITS) - 1;

const COUNT_MASK: u64 = (1 << COUNT_BITS) - 1;

const STATE_MASK: u64 = (1 << STATE_BITS) - 1;

/// The state of a superblock.
#[derive(Clone, Copy, Debug, PartialEq, Eq)]
pub enum AnchorState {
    /// Its descriptor stands in an active word, or is about to be put there.
    Active,
    /// No block of it can be reserved until one is freed.
    Full,
    /// Blocks of it can be reserved, and its descriptor stands in no active word.
    Partial,
    /// All its blocks are free.
    Empty,
}

/// The anchor of a superblock. It is kept as its word, which a call reads and exchanges far more often than
/// it looks at all fields.
#[derive(Clone, Copy, Debug, PartialEq, Eq)]
pub struct Anchor {
    word: u64,
}

impl Model for Anchor {
    ghost use Rattle.std.specs.Prelude.{◌≡◌};
    ghost use Rattle.std.proofs.Common.{ap};
    ghost use Rattle.packed_words.specs.Anchor.{AnchorFields, anchor_of, anchor_word};

    ghost Value = { AnchorFields };

    ghost view = { λ a. anchor_of a.word };

    ghost invariant = { λ a. anchor_word (anchor_of a.word) ≡ a.word };

    ghost inverse = { λ a. record { word = anchor_word a } };

    ghost inverse_ok = { λ a whole. ap (λ word. record { word = word }) whole };
}

impl Anchor {
    /// The anchor with these fields: the first available block, the number of free blocks that
    /// nobody has reserved, the state, and the tag.
    pub fn new(avail: u16, count: u16, state: AnchorState, tag: u64) -> Anchor
        requires avail { avail < 2 ^ AVAIL_BITS }
        requires count { count < 2 ^ COUNT_BITS }
        requires tag { tag < 2 ^ TAG_BITS }
        ensures { result ≡ record { avail = avail; count = count; state = state; tag = tag } }
    {
        Anchor {
            word: anchor_word(avail, count, state, tag),
        }
    }

    /// The index of the first available block.
    pub fn avail(self) -> u16
        ensures value { result ≡ self.avail }
        ensures fits { result < 2 ^ AVAIL_BITS }
    {
        (self.word & AVAIL_MASK) as u16
    }

    /// How many free blocks nobody has reserved.
    pub fn count(self) -> u16
        ensures value { result ≡ self.count }
        ensures fits { result < 2 ^ COUNT_BITS }
    {
        ((self.word >> COUNT_AT) & COUNT_MASK) as u16
    }

    /// The state of the superblock.
    pub fn state(self) -> AnchorState
        ensures { result ≡ self.state }
    {
        state_of((self.word >> STATE_AT) & STATE_MASK)
    }

    /// How often a block was popped, cut to its bits.
    pub fn tag(self) -> u64
        ensures value { result ≡ self.tag }
        ensures fits { result < 2 ^ TAG_BITS }
    {
        self.word >> TAG_AT
    }

    /// The anchor's word.
    pub fn pack(self) -> u64
        ensures word { result ≡ anchor_word self }
        ensures back { anchor_of result ≡ self }
    {
        self.word
    }

    /// The anchor that a word says. Every word says one.
    pub fn unpack(word: u64) -> Anchor
        ensures value { result ≡ anchor_of word }
        ensures rule { IsAnchor result }
        ensures back { anchor_word result ≡ word }
    {
        Anchor { word }
    }
}

/// The word of an anchor with these fields.
fn anchor_word(avail: u16, count: u16, state: AnchorState, tag: u64) -> u64
    requires avail { avail < 2 ^ AVAIL_BITS }
    requires count { count < 2 ^ COUNT_BITS }
    requires tag { tag < 2 ^ TAG_BITS }
    ensures { result ≡ anchor_word (record { avail = avail; count = count; state = state; tag = tag }) }
{
    u64::from(avail) | u64::from(count) << COUNT_AT | state_code(state) << STATE_AT | tag << TAG_AT
}

/// The code of a state.
fn state_code(state: AnchorState) -> u64
    ensures { result ≡ state_code state }
{
    match state {
        AnchorState::Active => 0,
        AnchorState::Full => 1,
        AnchorState::Partial => 2,
        AnchorState::Empty => 3,
    }
}

/// The state of a code.
fn state_of(code: u64) -> AnchorState
    ensures { result ≡ state_of code }
{
    match code {
        0 => AnchorState::Active,
        1 => AnchorState::Full,
        2 => AnchorState::Partial,
        _ => AnchorState::Empty,
    }
}
