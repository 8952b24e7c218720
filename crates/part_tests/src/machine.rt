//! Numbers of steps, words and events of small runs. Expected values are worked by hand, or come from
//! a model of the machine that was written apart from it.

use crate::script::{
    Deed, Request, THREE, begin, call, heap, open, place_given, play, script, slot,
};
use errand_steps::reply::{Begun, Progress, Reply};
use heap_geometry::need::Need;
use pool_model::event::Event;
use std::alloc::AllocError;
use std::process::Abort;
use std::test::Fail;
use step_machine::machine::Core;
use word_table::name::WordName;

// Both callers begin an allocation. Caller 0 has the anchor and the link when caller 1 pops the same block.
#[test]
fn a_pop_is_lost_where_another_came_between(rt: HostRuntime) -> Result<(), Fail> {
    let deeds = [
        Deed::Begins(0, 2047, Begun::Started),
        Deed::Begins(1, 2047, Begun::Started),
        Deed::Slots(5, 6, 11),
        Deed::Word(WordName::Anchor(0), 20_971_521),
        Deed::Word(WordName::Active(0, 10), 0),
        Deed::Slot(0, Progress::Lost),
    ];
    script(&rt, rt.alloc(), heap(1, 0, 2, 9), Some(10), &deeds)
}

/// An allocation of 2,047 words, which is given this place.
fn given(caller: u32, place: u32) -> Event {
    Event::Alloc {
        caller,
        need: 2047,
        place,
    }
}

#[test]
fn a_lost_pop_begins_again(rt: HostRuntime) -> Result<(), Fail> {
    let deeds = [
        Deed::Begins(0, 2047, Begun::Started),
        Deed::Begins(1, 2047, Begun::Started),
        Deed::Slots(5, 6, 11),
        Deed::Slots(4, 0, 4),
        Deed::Word(WordName::Anchor(0), 37_748_736),
        Deed::Events(2),
        Deed::Told(0, given(1, 0)),
        Deed::Told(1, given(0, 2048)),
        Deed::Steps(15),
        Deed::Counts(0, 1, 2, 1, 0),
        Deed::Counts(1, 1, 2, 0, 0),
    ];
    script(&rt, rt.alloc(), heap(1, 0, 2, 9), Some(10), &deeds)
}

/// A need that two blocks of one superblock serve.
const HALF: Need = Need::Small(10);

// The free of the first block of a FULL superblock makes that PARTIAL, and puts it into its slot.
#[test]
fn a_full_superblock_becomes_partial(rt: HostRuntime) -> Result<(), Fail> {
    let freed = Event::Free {
        caller: 0,
        place: 0,
    };
    let deeds = [
        Deed::Allocates(2047, 7, 0, HALF),
        Deed::Allocates(2047, 7, 2048, HALF),
        Deed::Asks(0, 0, HALF, Request::Free),
        Deed::Slots(4, 0, 4),
        Deed::Word(WordName::Anchor(0), 41_945_088),
        Deed::Last(freed),
        Deed::Ends(2, Reply::Freed),
        Deed::Word(WordName::Slot(0, 10), 1),
        Deed::Allocates(2047, 11, 0, HALF),
        Deed::Word(WordName::Anchor(0), 54_525_952),
        Deed::Word(WordName::Slot(0, 10), 0),
    ];
    script(&rt, rt.alloc(), heap(1, 0, 1, 9), Some(10), &deeds)
}

// A block of the largest class has as many usable words as one unit, and is no run of one.
#[test]
fn a_small_block_is_not_freed_as_a_run(rt: HostRuntime) -> Result<(), Fail> {
    let deeds = [
        Deed::Allocates(2047, 7, 0, HALF),
        Deed::CannotAsk(0, 0, Need::Large(1), Request::Free),
        Deed::Calls(0, HALF, Request::Free, 4, Reply::Freed),
    ];
    script(&rt, rt.alloc(), heap(1, 0, 1, 9), Some(10), &deeds)
}

// A superblock becomes EMPTY, and its frame goes to the stack; so the next allocation looks for a partial
// one in vain.
#[test]
fn an_empty_superblock_gives_its_frame_back(rt: HostRuntime) -> Result<(), Fail> {
    let looked = Event::Looked {
        caller: 0,
        class: 10,
    };
    let deeds = [
        Deed::Allocates(2047, 7, 0, HALF),
        Deed::Allocates(2047, 7, 2048, HALF),
        Deed::Calls(0, HALF, Request::Free, 6, Reply::Freed),
        Deed::Calls(2048, HALF, Request::Free, 12, Reply::Freed),
        Deed::Word(WordName::FrameHead, 1),
        Deed::Word(WordName::Slot(0, 10), 0),
        Deed::Word(WordName::Hazard(0), 0),
        Deed::Begins(0, 2047, Begun::Started),
        Deed::Slots(13, 0, 13),
        Deed::Word(WordName::FrameHead, 65_536),
        Deed::Last(looked),
        Deed::Steps(45),
    ];
    script(&rt, rt.alloc(), heap(1, 0, 1, 9), Some(10), &deeds)
}

// The 64th allocation takes the last of the 64 credits, and installs 64 others.
#[test]
fn the_last_credit_fetches_others(rt: HostRuntime) -> Result<(), Fail> {
    let deeds = [
        Deed::AllocatesTimes(3, 64),
        Deed::Steps(449),
        Deed::Word(WordName::Anchor(0), 1_075_576_896),
        Deed::Word(WordName::Active(0, 1), 127),
    ];
    script(&rt, rt.alloc(), heap(1, 0, 1, 99), Some(1), &deeds)
}

// In a new heap the first allocation is given block 0 of a new superblock, and takes no credit.
#[test]
fn a_new_superblock_offers_64_blocks_beside_the_first(rt: HostRuntime) -> Result<(), Fail> {
    let deeds = [
        Deed::Allocates(3, 1041, 0, THREE),
        Deed::Word(WordName::Anchor(0), 1 + 959 * 2048),
        Deed::Word(WordName::Active(0, 1), 127),
        Deed::AllocatesTimes(3, 64),
        Deed::Word(WordName::Anchor(0), 1_075_574_849),
        Deed::Word(WordName::Active(0, 1), 127),
    ];
    script(&rt, rt.alloc(), heap(1, 0, 1, 99), None, &deeds)
}

#[test]
fn a_large_block_is_shelved_and_freed(rt: HostRuntime) -> Result<(), Fail> {
    let need = Need::Large(2);
    let got = Reply::Got { place: 4096, need };
    let deeds = [
        Deed::Allocates(2048, 3, 4096, need),
        Deed::Word(WordName::Units, 3),
        Deed::Word(WordName::Arena(4096), 5),
        Deed::Calls(4096, need, Request::Put(4), 1, Reply::Put),
        Deed::Word(WordName::Shelf(4), 524_434),
        Deed::Takes(4, 2, got),
        Deed::Calls(4096, need, Request::Free, 2, Reply::Freed),
        Deed::Takes(4, 2, Reply::Empty),
        Deed::Word(WordName::Units, 0),
    ];
    script(&rt, rt.alloc(), heap(1, 3, 1, 9), None, &deeds)
}

#[test]
fn words_are_read_as_written(rt: HostRuntime) -> Result<(), Fail> {
    let deeds = [
        Deed::Allocates(3, 1041, 0, THREE),
        Deed::Calls(0, THREE, Request::Write(0, 5), 1, Reply::Wrote),
        Deed::Calls(0, THREE, Request::Write(1, 6), 1, Reply::Wrote),
        Deed::Calls(0, THREE, Request::Write(2, 7), 1, Reply::Wrote),
        Deed::Calls(0, THREE, Request::Read(0), 1, Reply::Word(5)),
        Deed::Calls(0, THREE, Request::Read(1), 1, Reply::Word(6)),
        Deed::Calls(0, THREE, Request::Read(2), 1, Reply::Word(7)),
        Deed::CannotAsk(0, 0, THREE, Request::Read(3)),
    ];
    script(&rt, rt.alloc(), heap(4, 0, 1, 9), None, &deeds)
}

#[test]
fn a_shelf_holds_one_block(rt: HostRuntime) -> Result<(), Fail> {
    let full = Reply::Full { found: 129 };
    let deeds = [
        Deed::Allocates(3, 1041, 0, THREE),
        Deed::Calls(0, THREE, Request::Put(0), 1, Reply::Put),
        Deed::Allocates(3, 7, 4, THREE),
        Deed::Calls(4, THREE, Request::Put(0), 1, full),
    ];
    script(&rt, rt.alloc(), heap(4, 0, 1, 9), None, &deeds)
}

#[test]
fn the_turn_limit_ends_small_allocations(rt: HostRuntime) -> Result<(), Fail> {
    let deeds = [
        Deed::Begins(0, 1, Begun::Started),
        Deed::Finishes,
        Deed::Word(WordName::Anchor(0), 4_061_185),
        Deed::Word(WordName::Active(0, 0), 127),
        Deed::Begins(0, 1, Begun::Spent),
        Deed::Begins(0, 131_072, Begun::TooLarge),
        Deed::Begins(0, 2048, Begun::Started),
    ];
    script(&rt, rt.alloc(), heap(4, 2, 1, 1), None, &deeds)
}

#[test]
fn slots_of_an_idle_caller_are_no_steps(rt: HostRuntime) -> Result<(), Fail> {
    let looked = Event::Looked {
        caller: 0,
        class: 10,
    };
    let deeds = [
        Deed::Slot(0, Progress::Idle),
        Deed::Begins(0, 2047, Begun::Started),
        Deed::Slots(30, 0, 19),
        Deed::Idle(0),
        Deed::Events(2),
        Deed::Told(0, looked),
        Deed::Told(1, given(0, 0)),
    ];
    script(&rt, rt.alloc(), heap(1, 0, 1, 9), None, &deeds)
}

/// Caller 1 alone is given a block and frees it, in as many steps as where no other caller is.
fn caller_1_alone<R: Abort>(rt: &R, core: &mut Core) -> Result<(), Fail> {
    let deeds = [Deed::Begins(1, 1, Begun::Started), Deed::Alone(1, 2065)];
    play(rt, core, &deeds)?;
    let place = place_given(core, 1, 1).unwrap_or(u32::MAX);
    let freed = Event::Free { caller: 1, place };
    let deeds = [
        Deed::Asks(1, place, Need::Small(0), Request::Free),
        Deed::Alone(1, 4),
        Deed::Last(freed),
        Deed::Counts(1, 1, 4, 0, 0),
        Deed::Alone(1, 0),
    ];
    play(rt, core, &deeds)
}

// Caller 0 stops for ever after each of its 44 steps. Wherever that is, caller 1 alone is given a block and
// frees it, in as many steps, and loses no exchange.
#[test]
fn a_caller_ends_its_calls_wherever_another_stopped(rt: HostRuntime) -> Result<(), Fail> {
    for stop in 0..45 {
        let mut core = open(&rt, rt.alloc(), heap(2, 0, 2, 9), None)?;
        play(&rt, &mut core, &[Deed::StopsAfter(stop), Deed::Steps(stop)])?;
        caller_1_alone(&rt, &mut core)?;
    }
    Ok(())
}

// The free of the last block of a superblock guards descriptor 0. So caller 1, refused for the second time,
// makes descriptor 1 available before it, and descriptor 2 when it is refused again; a word names a
// descriptor by its number plus 1.
#[test]
fn a_guarded_descriptor_is_not_made_available(rt: HostRuntime) -> Result<(), Fail> {
    let deeds = [
        Deed::StopsAfter(38),
        Deed::Word(WordName::Hazard(0), 1),
        Deed::Begins(1, 2047, Begun::Started),
        Deed::Alone(1, 17),
        Deed::Word(WordName::DescHead, 3),
        Deed::Begins(1, 2047, Begun::Started),
        Deed::Alone(1, 17),
        Deed::Word(WordName::DescHead, 2),
        Deed::Begins(1, 2047, Begun::Started),
        Deed::Alone(1, 17),
        Deed::Word(WordName::DescHead, 3),
        Deed::Alone(0, 6),
        Deed::Word(WordName::Hazard(0), 0),
        Deed::Word(WordName::DescHead, 3),
    ];
    script(&rt, rt.alloc(), heap(1, 0, 2, 9), None, &deeds)
}

/// So many slots of caller 0.
fn slots(core: &mut Core, count: u64) -> Result<(), AllocError> {
    for _ in 0..count {
        let _ = slot(core, 0)?;
    }
    Ok(())
}

/// So many slots of caller 1, which allocates one word and frees it, again and again.
fn allocate_and_free(core: &mut Core, count: u64) -> Result<(), AllocError> {
    for _ in 0..count {
        match place_given(core, 1, 1) {
            Some(place) => {
                let _ = call(core, 1, place, Need::Small(0), Request::Free);
            }
            None => {
                let _ = begin(core, 1, 1);
            }
        }
        let _ = slot(core, 1)?;
    }
    Ok(())
}

/// Two callers want a superblock at the same time, three times over. Caller 1 wins each time, and has taken
/// the last credit of its own when caller 0 looks again.
fn lose_three_times(core: &mut Core) -> Result<(), AllocError> {
    let _ = begin(core, 0, 1);
    slots(core, 2063)?;
    allocate_and_free(core, 2065)?;
    slots(core, 1)?;
    for left in [699, 700] {
        allocate_and_free(core, left)?;
        slots(core, 2066)?;
        allocate_and_free(core, 5)?;
        slots(core, 1)?;
    }
    allocate_and_free(core, 700)
}

// From one lost exchange to the end of its call a caller makes 2,073 steps: 2,048 blocks are linked.
#[test]
fn a_turn_of_most_steps(rt: HostRuntime) -> Result<(), Fail> {
    let mut core = open(&rt, rt.alloc(), heap(2, 0, 2, 999), None)?;
    lose_three_times(&mut core)?;
    let given = Event::Alloc {
        caller: 0,
        need: 1,
        place: 0,
    };
    let deeds = [
        Deed::Counts(0, 3, 8, 3, 0),
        Deed::Alone(0, 2073),
        Deed::Counts(0, 4, 13, 3, 0),
        Deed::Last(given),
    ];
    play(&rt, &mut core, &deeds)
}
