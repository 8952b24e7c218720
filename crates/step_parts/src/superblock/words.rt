//! The numbers of the words that a step writes.

ghost use Rattle.std.specs.Prelude.{◌≡◌, ◌+◌};
ghost use Rattle.packed_words.specs.Active.{active_word};
ghost use Rattle.packed_words.specs.Prefix.{prefix_word};
ghost use Rattle.packed_words.specs.declared.active.ActiveWord.{ActiveWord};
ghost use Rattle.packed_words.specs.declared.prefix.Prefix.{Prefix};
ghost use Rattle.word_table.specs.Sites.{active_name, block_name};
ghost use Rattle.step_parts.specs.superblock.Anchors.{new_link};
ghost use Rattle.step_parts.specs.superblock.Points.{credit_taken};

use packed_words::widths::{CREDIT_BITS, KIND_BITS};
use word_table::name::WordName;
use word_table::seat::{Seat, Site};

/// The active word of the seat's processor heap and class.
pub fn active_name(seat: Seat) -> WordName
    ensures { result ≡ active_name seat }
{
    WordName::Active(seat.heap(), seat.class())
}

/// The prefix word of a superblock's block.
pub fn block_name(site: &Site, index: u16) -> WordName
    ensures { result ≡ block_name site.now index }
{
    WordName::Arena(site.place(index))
}

/// The active word without a superblock.
#[tactic(auto, unfolding(packed_words::specs::Active::active_word))]
pub fn null_word() -> u64
    ensures { result ≡ active_word ActiveWord.Null }
{
    0
}

/// The active word that offers so many blocks, and one more.
#[tactic(auto, unfolding(packed_words::specs::Active::active_word))]
pub fn held_word(desc: u16, credits: u16) -> u64
    ensures { result ≡ active_word (ActiveWord.Held desc credits) }
{
    u64::from(credits) + (u64::from(desc) + 1) * (1 << CREDIT_BITS)
}

/// The active word that is left where one of these credits is taken.
#[tactic(auto, unfolding(packed_words::specs::Active::active_word))]
pub fn credit_taken(desc: u16, credits: u8) -> u64
    ensures { result ≡ credit_taken desc credits }
{
    if credits == 0 {
        null_word()
    } else {
        held_word(desc, u16::from(credits) - 1)
    }
}

/// The prefix word of a live block of a descriptor's superblock.
#[tactic(auto, unfolding(packed_words::specs::Prefix::prefix_word))]
pub fn live_prefix(desc: u16) -> u64
    ensures { result ≡ prefix_word (Prefix.Small desc) }
{
    u64::from(desc) << KIND_BITS
}

/// The link of a new superblock's block.
pub fn new_link(seat: Seat, index: u16) -> u64
    ensures { result ≡ new_link seat.class index }
{
    if u32::from(index) + 1 < u32::from(seat.block_count()) {
        u64::from(index) + 1
    } else {
        0
    }
}
