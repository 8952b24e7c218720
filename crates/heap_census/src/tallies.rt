//! How many superblocks each class has, by the words.

ghost use Rattle.std.specs.Prelude.{◌≡◌, ◌<◌, ◌≤◌, ◌*◌, ◌^◌, slice_index_or};
ghost use Rattle.heap_geometry.specs.declared.limits.TheConstants.{CLASSES, MAX_COUNT};
ghost use Rattle.packed_words.specs.declared.anchor.AnchorState.{AnchorState as Phase};
ghost use Rattle.word_table.specs.Counts.{descriptor_count};
ghost use Rattle.word_table.specs.declared.limits.TheConstants.{MAX_DESCRIPTORS};
ghost use Rattle.sound_state.specs.Superblocks.{anchor_for, info_for};
ghost use Rattle.live_heap.specs.Endings.{IsResting};
ghost use Rattle.heap_census.specs.Census.{active_in, closed_state};
ghost use Rattle.heap_census.specs.Tallies.{AreTallies, AreWithin, IsSameTally, is_anchored, nothing_yet, anchored_tally, with_active, with_actives, with_anchored, with_superblock};

use crate::census::CLASS_COUNT;
use live_heap::closed::Closed;
use packed_words::active::ActiveWord;
use packed_words::anchor::{Anchor, AnchorState};
use packed_words::info::Info;
use word_table::layout::Layout;
use word_table::name::WordName;

/// Some superblocks of one class.
#[derive(Clone, Copy, Debug, PartialEq, Eq)]
pub struct SuperblockTally {
    /// How many there are.
    pub superblocks: u64,
    /// How many free blocks their anchors count.
    pub free: u64,
    /// How many blocks active words offer of them.
    pub reserved: u64,
}

/// No superblocks yet.
const NOTHING_YET: SuperblockTally = SuperblockTally {
    superblocks: 0,
    free: 0,
    reserved: 0,
};

/// The superblocks of each class whose anchors say FULL or PARTIAL.
pub fn tally_anchored(closed: &Closed) -> [SuperblockTally; CLASS_COUNT]
    requires { IsResting closed.now }
    ensures { AreTallies result (anchored_tally (closed_state closed.now) (descriptor_count closed.now.geometry)) }
{
    let descriptors = Layout::new(closed.geometry()).descriptors();
    let mut tallies = [NOTHING_YET; CLASS_COUNT];
    for desc in 0..descriptors {
        add_anchored(closed, &mut tallies, desc as u16);
    }
    tallies
}

/// Adds the superblock of a descriptor whose anchor says FULL or PARTIAL.
fn add_anchored(closed: &Closed, tallies: &mut [SuperblockTally; CLASS_COUNT], desc: u16)
    requires rests { IsResting closed.now }
    requires desc { desc < descriptor_count closed.now.geometry }
    requires room { AreWithin tallies.old desc }
    ensures { tallies.new ≡ with_anchored (closed_state closed.now) tallies.old desc }
{
    let anchor = Anchor::unpack(closed.word(WordName::Anchor(desc)));
    if is_anchored(anchor.state()) {
        add_superblock(tallies, class_of(closed, desc), anchor.count());
    }
}

/// Whether an anchor in this state has a superblock, whatever else the words say.
fn is_anchored(state: AnchorState) -> bool
    ensures { result ≡ is_anchored state }
{
    match state {
        AnchorState::Full | AnchorState::Partial => true,
        AnchorState::Active | AnchorState::Empty => false,
    }
}

/// The class of a descriptor's superblock.
fn class_of(closed: &Closed, desc: u16) -> u8
    requires rests { IsResting closed.now }
    requires desc { desc < descriptor_count closed.now.geometry }
    ensures value { result ≡ (info_for (closed_state closed.now) desc).class }
    ensures within { result < CLASSES }
{
    match Info::unpack(closed.word(WordName::Info(desc))) {
        Some(info) => info.class(),
        None => unreachable!(),
    }
}

/// Counts a superblock of the class, of which so many blocks are free.
fn add_superblock(tallies: &mut [SuperblockTally; CLASS_COUNT], class: u8, free: u16)
    requires class { class < CLASSES }
    requires free { free ≤ MAX_COUNT }
    requires superblocks { (slice_index_or tallies.old class nothing_yet).superblocks ≤ MAX_DESCRIPTORS }
    requires counted { (slice_index_or tallies.old class nothing_yet).free ≤ MAX_COUNT * MAX_DESCRIPTORS }
    ensures { tallies.new ≡ with_superblock tallies.old class free }
{
    let tally = tallies[usize::from(class)];
    tallies[usize::from(class)] = SuperblockTally {
        superblocks: tally.superblocks + 1,
        free: tally.free + u64::from(free),
        reserved: tally.reserved,
    };
}

/// Adds the superblocks that the active words of the class name, and what these words offer.
pub fn add_actives(closed: &Closed, class: u8, anchored: SuperblockTally) -> SuperblockTally
    requires rests { IsResting closed.now }
    requires class { class < CLASSES }
    requires anchored { IsSameTally anchored (anchored_tally (closed_state closed.now) (descriptor_count closed.now.geometry) class) }
    ensures { IsSameTally result (with_actives (closed_state closed.now) anchored class closed.now.geometry.heaps) }
{
    let mut tally = anchored;
    for heap in 0..closed.geometry().heaps {
        tally = add_active(closed, tally, heap as u8, class);
    }
    tally
}

/// Adds the superblock that an active word names, and what it offers.
fn add_active(closed: &Closed, tally: SuperblockTally, heap: u8, class: u8) -> SuperblockTally
    requires rests { IsResting closed.now }
    requires heap { heap < closed.now.geometry.heaps }
    requires class { class < CLASSES }
    requires room { (tally.superblocks < 2 ^ 32) × (tally.free < 2 ^ 32) × (tally.reserved < 2 ^ 32) }
    ensures { IsSameTally result (with_active (closed_state closed.now) tally (active_in (closed_state closed.now) heap class)) }
{
    match ActiveWord::unpack(closed.word(WordName::Active(heap, class))) {
        Some(ActiveWord::Held { desc, credits }) => {
            let anchor = Anchor::unpack(closed.word(WordName::Anchor(desc)));
            SuperblockTally {
                superblocks: tally.superblocks + 1,
                free: tally.free + u64::from(anchor.count()),
                reserved: tally.reserved + u64::from(credits) + 1,
            }
        }
        _ => tally,
    }
}
