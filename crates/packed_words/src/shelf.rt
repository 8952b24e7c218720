//! The word of a shelf, on which a block is handed over.

ghost use Rattle.std.specs.Prelude.{◌≡◌, ◌<◌, Some};
ghost use Rattle.packed_words.specs.Fields.{Reads};
ghost use Rattle.packed_words.specs.Shelf.{IsBlockNeed, IsShelfWord, need_code, need_of_code, shelf_word, shelf_of};

use crate::widths::CODE_BITS;
use heap_geometry::limits::{CLASSES, FRAME_WORDS, LEAST_UNITS, MAX_FRAMES, MAX_UNITS, UNIT_WORDS};
use heap_geometry::need::Need;

/// The code of a run of units is this and their number. The code of a small block is its class.
pub const LARGE_CODE: u8 = 16;

/// The words of the largest arena. Every place is below.
pub const MAX_ARENA_WORDS: u32 = MAX_FRAMES * FRAME_WORDS + MAX_UNITS * UNIT_WORDS;

const CODE_MASK: u64 = (1 << CODE_BITS) - 1;

/// What lies on a shelf.
#[derive(Clone, Copy, Debug, PartialEq, Eq)]
pub enum ShelfWord {
    Nothing,
    /// The block at this place, below `MAX_ARENA_WORDS`, which serves this need. The need is not
    /// `TooLarge`.
    Block { place: u32, need: Need },
}

impl ShelfWord {
    /// The word that says it.
    pub fn pack(self) -> u64
        requires { IsShelfWord self }
        ensures word { result ≡ shelf_word self }
        ensures back { shelf_of result ≡ Some self }
    {
        match self {
            ShelfWord::Nothing => 0,
            ShelfWord::Block { place, need } => {
                u64::from(need_code(need)) | (u64::from(place) + 1) << CODE_BITS
            }
        }
    }

    /// What a word says; `None` where it is no word of a shelf.
    pub fn unpack(word: u64) -> Option<ShelfWord>
        ensures value { result ≡ shelf_of word }
        ensures exact { Reads IsShelfWord shelf_word word result }
    {
        if word == 0 {
            return Some(ShelfWord::Nothing);
        }
        let above = word >> CODE_BITS;
        if above < 1 || above > u64::from(MAX_ARENA_WORDS) {
            return None;
        }
        let need = need_of_code((word & CODE_MASK) as u8)?;
        Some(ShelfWord::Block {
            place: (above - 1) as u32,
            need,
        })
    }
}

/// The code of a need.
fn need_code(need: Need) -> u8
    requires { IsBlockNeed need }
    ensures { result ≡ need_code need }
{
    match need {
        Need::Small(class) => class,
        Need::Large(units) => LARGE_CODE + units,
        Need::TooLarge => unreachable!(),
    }
}

/// The need of a code, where there is one.
fn need_of_code(code: u8) -> Option<Need>
    ensures { result ≡ need_of_code code }
{
    if code < CLASSES {
        return Some(Need::Small(code));
    }
    let units = code.saturating_sub(LARGE_CODE);
    if u32::from(units) >= LEAST_UNITS && u32::from(units) <= MAX_UNITS {
        Some(Need::Large(units))
    } else {
        None
    }
}
