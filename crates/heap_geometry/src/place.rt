//! Where blocks lie. A block's place is the arena word of its prefix word.

ghost use Rattle.std.specs.Prelude.{ℕ, ◌≡◌, ◌<◌, ◌≤◌};
ghost use Rattle.heap_geometry.specs.Need.{block_count_of};
ghost use Rattle.heap_geometry.specs.Place.{block_place, frame_of, index_of, IsBlockPlace, unit_place, unit_of};
ghost use Rattle.heap_geometry.specs.declared.limits.TheConstants.{CLASSES, MAX_FRAMES, MAX_UNITS};

use crate::limits::{FRAME_WORDS, UNIT_WORDS};
use crate::need::block_words;

/// The place of a frame's block.
pub fn place_of(frame: u32, class: u8, index: u32) -> u32
    requires frame { frame < MAX_FRAMES }
    requires class { class < CLASSES }
    requires index { index < block_count_of class }
    ensures place { result ≡ block_place frame class index }
    ensures frame { frame_of result ≡ frame }
    ensures index { index_of class result ≡ index }
{
    FRAME_WORDS * frame + index * block_words(class)
}

/// The frame and the index of a block, from its place.
pub fn split_place(place: u32, class: u8) -> (u32, u32)
    requires class { class < CLASSES }
    requires place { IsBlockPlace class place }
    ensures place { block_place result.0 class result.1 ≡ place }
    ensures frame { result.0 < MAX_FRAMES }
    ensures index { result.1 < block_count_of class }
{
    (
        place / FRAME_WORDS,
        place % FRAME_WORDS / block_words(class),
    )
}

/// The first word of a unit, in an arena with so many frames.
pub fn place_of_unit(frames: u32, unit: u32) -> u32
    requires frames { frames ≤ MAX_FRAMES }
    requires unit { unit ≤ MAX_UNITS }
    ensures { result ≡ unit_place frames unit }
{
    FRAME_WORDS * frames + UNIT_WORDS * unit
}

/// The unit in which a place lies, in an arena with so many frames.
pub fn unit_of(frames: u32, place: u32) -> u32
    ensures value { result ≡ unit_of frames place }
    ensures back { (unit : ℕ) → place ≡ unit_place frames unit → result ≡ unit }
{
    place.saturating_sub(FRAME_WORDS.saturating_mul(frames)) / UNIT_WORDS
}
