//! Size classes: which blocks serve an allocation, and how many words they have.

ghost use Rattle.std.specs.Prelude.{◌≡◌, ◌<◌, ◌≤◌};
ghost use Rattle.heap_geometry.specs.Need.{IsNeed, IsNeedOf, IsLeastFor, need_of, class_words, run_words, usable_words, block_words_of, block_count_of};
ghost use Rattle.heap_geometry.specs.declared.limits.TheConstants.{CLASSES, SMALL_MOST, LARGE_MOST, MAX_UNITS};

use crate::limits::{CLASSES, FRAME_WORDS, LARGE_MOST, SMALL_MOST, UNIT_WORDS};

/// Which blocks serve an allocation.
#[derive(Clone, Copy, Debug, PartialEq, Eq)]
pub enum Need {
    /// A block of this size class.
    Small(u8),
    /// A run of this many units.
    Large(u8),
    /// More words than the largest block has.
    TooLarge,
}

/// The blocks that serve an allocation of so many usable words.
pub fn class_of(need: u32) -> Need
    ensures least { IsNeedOf need result }
    ensures value { result ≡ need_of need }
    ensures within { IsNeed result }
{
    if need <= SMALL_MOST {
        Need::Small(least_class(need))
    } else if need <= LARGE_MOST {
        Need::Large(least_run(need))
    } else {
        Need::TooLarge
    }
}

/// The least class with enough usable words.
fn least_class(need: u32) -> u8
    requires { need ≤ SMALL_MOST }
    ensures least { IsLeastFor class_words need result }
    ensures within { result < CLASSES }
{
    need.max(1).ilog2() as u8
}

/// The least run of units with enough usable words.
fn least_run(need: u32) -> u8
    requires large { SMALL_MOST < need }
    requires within { need ≤ LARGE_MOST }
    ensures least { IsLeastFor run_words need result }
    ensures within { result ≤ MAX_UNITS }
{
    (need + 1).div_ceil(UNIT_WORDS) as u8
}

/// The usable words of a block, which are all but its prefix word; none for `TooLarge`.
pub fn usable(need: Need) -> u32
    requires { IsNeed need }
    ensures { result ≡ usable_words need }
{
    match need {
        Need::Small(class) => block_words(class) - 1,
        Need::Large(units) => UNIT_WORDS * u32::from(units) - 1,
        Need::TooLarge => 0,
    }
}

/// The words of a block of a class, its prefix word among them.
pub fn block_words(class: u8) -> u32
    requires { class < CLASSES }
    ensures { result ≡ block_words_of class }
{
    1 << (class + 1)
}

/// How many blocks of a class fill a frame.
pub fn block_count(class: u8) -> u32
    requires { class < CLASSES }
    ensures { result ≡ block_count_of class }
{
    FRAME_WORDS >> (class + 1)
}
