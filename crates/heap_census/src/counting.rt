//! Counts what a closed heap holds.

ghost use Rattle.std.specs.Prelude.{ℕ, ◌≡◌, ◌<◌, ◌≤◌, ◌==◌, length, slice_index_or, if◌then◌else◌};
ghost use Rattle.std.specs.Int.{bit_at};
ghost use Rattle.heap_geometry.specs.declared.limits.TheConstants.{CLASSES, MAX_UNITS};
ghost use Rattle.word_table.specs.Counts.{descriptor_count};
ghost use Rattle.sound_state.specs.Lists.{Lists, IsListed};
ghost use Rattle.sound_state.specs.Sums.{sum_below};
ghost use Rattle.live_heap.specs.Endings.{IsResting};
ghost use Rattle.heap_census.specs.Census.{IsCensus, IsClassCount, closed_state, no_blocks};
ghost use Rattle.heap_census.specs.Tallies.{IsSameTally, anchored_tally};

use crate::census::{CLASS_COUNT, Census, ClassCount};
use crate::tallies::{SuperblockTally, add_actives, tally_anchored};
use heap_geometry::limits::CLASSES;
use heap_geometry::need::block_count;
use live_heap::closed::Closed;
use packed_words::head::Head;
use word_table::name::WordName;

/// No blocks.
const NO_BLOCKS: ClassCount = ClassCount {
    blocks: 0,
    free: 0,
    reserved: 0,
    live: 0,
};

/// Counts what a closed heap holds.
pub fn census(closed: &Closed) -> Census
    ensures { IsCensus closed.now result }
{
    let units = closed.geometry().units;
    Census {
        per_class: count_classes(closed),
        free_frames: count_frames(closed),
        free_units: count_clear(closed.word(WordName::Units), units),
    }
}

/// The blocks of each class.
fn count_classes(closed: &Closed) -> [ClassCount; CLASS_COUNT]
    requires { IsResting closed.now }
    ensures classes { length result ≡ CLASSES }
    ensures each { (l : Lists) → IsListed closed.now.geometry (closed_state closed.now).word l
        → (class : ℕ) → class < CLASSES → IsClassCount closed.now l class (slice_index_or result class no_blocks) }
{
    let anchored = tally_anchored(closed);
    let mut counts = [NO_BLOCKS; CLASS_COUNT];
    for class in 0..CLASSES {
        counts[usize::from(class)] = count_class(closed, class, anchored[usize::from(class)]);
    }
    counts
}

/// The blocks of a class, of whose superblocks those that stand in no active word are counted already.
fn count_class(closed: &Closed, class: u8, anchored: SuperblockTally) -> ClassCount
    requires rests { IsResting closed.now }
    requires class { class < CLASSES }
    requires anchored { IsSameTally anchored (anchored_tally (closed_state closed.now) (descriptor_count closed.now.geometry) class) }
    ensures { (l : Lists) → IsListed closed.now.geometry (closed_state closed.now).word l
        → IsClassCount closed.now l class result }
{
    let tally = add_actives(closed, class, anchored);
    let blocks = u64::from(block_count(class)) * tally.superblocks;
    ClassCount {
        blocks,
        free: tally.free,
        reserved: tally.reserved,
        live: blocks - tally.free - tally.reserved,
    }
}

/// How many frames the stack of free frames has.
fn count_frames(closed: &Closed) -> u32
    requires { IsResting closed.now }
    ensures { (l : Lists) → IsListed closed.now.geometry (closed_state closed.now).word l → result ≡ length l.frames }
{
    let mut frames = 0;
    let mut top = Head::unpack(closed.word(WordName::FrameHead)).top();
    while top != 0 {
        frames += 1;
        top = closed.word(WordName::FrameNext(top - 1)) as u16;
    }
    frames
}

/// How many of the first bits are 0.
fn count_clear(word: u64, bits: u32) -> u32
    requires { bits ≤ MAX_UNITS }
    ensures { result ≡ sum_below bits (λ bit. if bit_at word bit == 0 then 1 else 0) }
{
    let mut clear = 0;
    for bit in 0..bits {
        clear += clear_bit(word, bit);
    }
    clear
}

/// 1 where the bit is 0, else 0.
fn clear_bit(word: u64, bit: u32) -> u32
    requires { bit < MAX_UNITS }
    ensures { result ≡ (if bit_at word bit == 0 then 1 else 0) }
{
    if (word >> bit) & 1 == 0 { 1 } else { 0 }
}
