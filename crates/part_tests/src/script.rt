//! Scripts: what callers do with a machine one after the other, and what is found then.

ghost use Rattle.std.specs.Prelude.{◌<◌, IsTrue};
ghost use Rattle.errand_steps.specs.Begins.{IsIdle};
ghost use Rattle.step_machine.specs.Cores.{errand_at, OwnsBlock};

use errand_steps::reply::{Begun, Progress, Reply};
use heap_geometry::geometry::Geometry;
use heap_geometry::limits::{CALL_STEPS, CLASSES, FRAME_WORDS, SHELVES, UNIT_WORDS};
use heap_geometry::need::Need;
use pool_model::event::Event;
use pool_model::owner::Owner;
use std::alloc::{AllocError, Global};
use std::process::Abort;
use std::test::Fail;
use step_machine::laws::open_installed;
use step_machine::machine::{Core, Stopped};
use word_table::layout::Layout;
use word_table::name::WordName;

/// The need of three usable words, the only one whose blocks are written and read here.
pub const THREE: Need = Need::Small(1);

/// A heap with one processor heap of each class.
pub fn heap(frames: u32, units: u32, callers: u32, turn_limit: u64) -> Geometry {
    Geometry {
        frames,
        heaps: 1,
        units,
        callers,
        turn_limit,
    }
}

/// A machine over a heap with these numbers, in which a superblock of the class, if any, is installed.
pub fn open<R: Abort>(
    rt: &R,
    alloc: Global,
    geometry: Geometry,
    installed: Option<u8>,
) -> Result<Core, AllocError> {
    let Ok(geometry) = geometry.check() else {
        panic!(rt; "there is no such heap");
    };
    match installed {
        None => Core::open(alloc, geometry),
        Some(class) if class < CLASSES => open_installed(alloc, geometry, class),
        Some(_) => panic!(rt; "there is no such class"),
    }
}

/// The word of this name, where the heap has it.
fn word(core: &Core, name: WordName) -> Option<u64> {
    let heap = core.geometry();
    let has = match name {
        WordName::Arena(word) => word < FRAME_WORDS * heap.frames + UNIT_WORDS * heap.units,
        WordName::Anchor(desc) => u32::from(desc) < Layout::new(heap).descriptors(),
        WordName::Active(of, class) | WordName::Slot(of, class) => {
            u32::from(of) < heap.heaps && class < CLASSES
        }
        WordName::FrameHead | WordName::DescHead | WordName::Units => true,
        WordName::Hazard(caller) => u32::from(caller) < heap.callers,
        WordName::Shelf(shelf) => shelf < SHELVES,
        _ => false,
    };
    if has { Some(core.word(name)) } else { None }
}

/// A slot of a schedule for the caller, where the heap has it.
pub fn slot(core: &mut Core, caller: u32) -> Result<Option<Progress>, AllocError> {
    if caller < core.geometry().callers {
        Ok(Some(core.advance(caller)?))
    } else {
        Ok(None)
    }
}

/// Slots of the caller to the end of its call: how many steps it makes, and what the call answers.
fn finish(core: &mut Core, caller: u32) -> Result<(u64, Option<Reply>), AllocError> {
    let before = core.steps();
    let mut answer = None;
    for _ in 0..CALL_STEPS {
        if let Some(Progress::Done(reply)) = slot(core, caller)? {
            answer = Some(reply);
        }
    }
    Ok((core.steps().saturating_sub(before), answer))
}

/// A schedule of these callers, where the heap has them all.
fn run(core: &mut Core, callers: &[u8]) -> Option<Result<u64, Stopped>> {
    let limit = core.geometry().callers;
    if callers.iter().all(|caller| u32::from(*caller) < limit) {
        Some(core.run_schedule(callers))
    } else {
        None
    }
}

/// A schedule of so many slots of caller 0 and then so many of caller 1, where they are at most 32.
fn schedule(core: &mut Core, first: u8, second: u8) -> Option<Result<u64, Stopped>> {
    let mut callers = [0; 32];
    let end = usize::from(first) + usize::from(second);
    for slot in usize::from(first)..end.min(32) {
        callers[slot] = 1;
    }
    match callers.get(..end) {
        Some(callers) => run(core, callers),
        None => None,
    }
}

/// Steps of the caller alone to the end of its call, where the heap has it.
fn alone(core: &mut Core, caller: u32) -> Option<Result<u64, Stopped>> {
    if caller < core.geometry().callers {
        Some(core.run_alone(caller))
    } else {
        None
    }
}

/// Whether the caller is there and idle.
fn can_begin(core: &Core, caller: u32) -> bool
    ensures caller { IsTrue result → caller < core.now.geometry.callers }
    ensures idle { IsTrue result → IsIdle (errand_at core.now.errands caller) }
{
    caller < core.geometry().callers && core.idle(caller)
}

/// Whether the events tell that the caller owns a block at the place, that serves this need.
fn owns(core: &Core, caller: u32, place: u32, need: Need) -> bool
    ensures { IsTrue result → OwnsBlock core.now caller place need }
{
    match core.block_at(place) {
        Some((of, owner)) => of == need && owner == Owner::Caller(caller),
        None => false,
    }
}

/// Begins an allocation, where the caller is idle.
pub fn begin(core: &mut Core, caller: u32, need: u32) -> Option<Begun> {
    if can_begin(core, caller) {
        Some(core.begin_alloc(caller, need))
    } else {
        None
    }
}

/// What is asked of a block.
#[derive(Clone, Copy)]
pub enum Request {
    Free,
    Write(u32, u64),
    Read(u32),
    Put(u8),
}

/// Begins a call, where the caller is idle and owns the block.
pub fn call(core: &mut Core, caller: u32, place: u32, need: Need, request: Request) -> bool {
    if !can_begin(core, caller) || !owns(core, caller, place, need) {
        return false;
    }
    match request {
        Request::Free => core.begin_free(caller, place, need),
        Request::Write(i, v) if need == THREE && i < 3 => core.begin_write(
            caller, place, need, i, v,
        ),
        Request::Read(i) if need == THREE && i < 3 => core.begin_read(caller, place, need, i),
        Request::Put(shelf) if shelf < SHELVES => core.begin_put(caller, place, need, shelf),
        _ => return false,
    }
    true
}

/// Begins to take from a shelf, where the caller is idle.
fn take(core: &mut Core, caller: u32, shelf: u8) -> bool {
    if can_begin(core, caller) && shelf < SHELVES {
        core.begin_take(caller, shelf);
        true
    } else {
        false
    }
}

/// Turns, won and lost exchanges, and empty superblocks of the caller.
pub fn counts(core: &Core, caller: u32) -> Option<(u64, u64, u64, u64)> {
    if caller < core.geometry().callers {
        Some((
            core.turns(caller),
            core.won(caller),
            core.lost(caller),
            core.cleared(caller),
        ))
    } else {
        None
    }
}

/// The last event.
fn last(core: &Core) -> Option<Event> {
    core.events().last().copied()
}

/// The place of the block that the last event gives to this caller for this need, where it gives one.
pub fn place_given(core: &Core, to: u32, words: u32) -> Option<u32> {
    match last(core) {
        Some(
            Event::Alloc {
                caller,
                need,
                place,
            },
        ) if caller == to && need == words => Some(place),
        _ => None,
    }
}

/// Steps of caller 0 to the end of its call, as long as there are any; how many are left then.
fn spend(core: &mut Core, steps: u64) -> Result<u64, AllocError> {
    let mut left = steps;
    for _ in 0..steps {
        if !can_begin(core, 0) {
            let _ = slot(core, 0)?;
            left = left.saturating_sub(1);
        }
    }
    Ok(left)
}

/// Caller 0 allocates two blocks of 2,047 words and frees both; after so many steps it makes no more.
fn stop_after(core: &mut Core, steps: u64) -> Result<(), AllocError> {
    let block = Need::Small(10);
    let _ = begin(core, 0, 2047);
    let left = spend(core, steps)?;
    let _ = begin(core, 0, 2047);
    let left = spend(core, left)?;
    let _ = call(core, 0, 0, block, Request::Free);
    let left = spend(core, left)?;
    let _ = call(core, 0, 2048, block, Request::Free);
    let _ = spend(core, left)?;
    Ok(())
}

/// So many allocations of so many words.
fn allocate_times(core: &mut Core, words: u32, times: u32) -> Result<(), AllocError> {
    for _ in 0..times {
        let _ = begin(core, 0, words);
        let _ = finish(core, 0)?;
    }
    Ok(())
}

/// A deed of a script, and what it comes to.
#[derive(Clone, Copy)]
pub enum Deed {
    /// This caller begins an allocation of so many words, which begins so.
    Begins(u32, u32, Begun),
    /// This caller begins this with its block at the place.
    Asks(u32, u32, Need, Request),
    /// The caller owns no block at the place of which it can ask this.
    CannotAsk(u32, u32, Need, Request),
    /// Caller 0 allocates so many words, in so many steps, and is given the block at this place.
    Allocates(u32, u64, u32, Need),
    /// Caller 0 allocates so many words, so many times.
    AllocatesTimes(u32, u32),
    /// Caller 0 ends its call.
    Finishes,
    /// Caller 0 allocates two blocks of 2,047 words and frees both; after so many steps it makes no more.
    StopsAfter(u64),
    /// Caller 0 asks this of its block at the place, which takes so many steps and answers so.
    Calls(u32, Need, Request, u64, Reply),
    /// Caller 0 takes from a shelf, which takes so many steps and answers so.
    Takes(u8, u64, Reply),
    /// Caller 0 ends its call in so many steps, and it answers so.
    Ends(u64, Reply),
    /// One slot of a caller comes to this.
    Slot(u32, Progress),
    /// A schedule of so many slots of caller 0 and then so many of caller 1, of which so many are steps.
    Slots(u8, u8, u64),
    /// A caller alone makes so many steps to the end of its call.
    Alone(u32, u64),
    /// The caller is in no call.
    Idle(u32),
    /// The word stands in the table.
    Word(WordName, u64),
    /// A caller's turns, won and lost exchanges, and empty superblocks.
    Counts(u32, u64, u64, u64, u64),
    /// The last event.
    Last(Event),
    /// How many events there are.
    Events(usize),
    /// The event at this place, of which the first is 0.
    Told(usize, Event),
    /// The steps so far.
    Steps(u64),
}

/// Whether caller 0, which has begun its call if it could, ends it in so many steps with this answer.
fn ends(core: &mut Core, begun: bool, steps: u64, reply: Reply) -> Result<bool, AllocError> {
    Ok(begun && finish(core, 0)? == (steps, Some(reply)))
}

/// Does the deed, and answers whether it came to what it says.
fn comes_to(core: &mut Core, deed: Deed) -> Result<bool, AllocError> {
    match deed {
        Deed::Begins(caller, need, begun) => Ok(begin(core, caller, need) == Some(begun)),
        Deed::Asks(caller, place, need, request) => Ok(call(core, caller, place, need, request)),
        Deed::CannotAsk(caller, place, need, request) => Ok(!call(
            core, caller, place, need, request,
        )),
        Deed::Allocates(words, steps, place, need) => {
            let begun = begin(core, 0, words) == Some(Begun::Started);
            ends(core, begun, steps, Reply::Given { place, need })
        }
        Deed::Calls(place, need, request, steps, reply) => {
            let begun = call(core, 0, place, need, request);
            ends(core, begun, steps, reply)
        }
        Deed::Takes(shelf, steps, reply) => {
            let begun = take(core, 0, shelf);
            ends(core, begun, steps, reply)
        }
        Deed::Ends(steps, reply) => ends(core, true, steps, reply),
        other => passes(core, other),
    }
}

/// The same for a deed that is slots, or calls whose answers are not asked for.
fn passes(core: &mut Core, deed: Deed) -> Result<bool, AllocError> {
    match deed {
        Deed::Slot(caller, progress) => Ok(slot(core, caller)? == Some(progress)),
        Deed::Slots(first, second, steps) => Ok(schedule(core, first, second) == Some(Ok(steps))),
        Deed::Alone(caller, steps) => Ok(alone(core, caller) == Some(Ok(steps))),
        Deed::AllocatesTimes(words, times) => {
            allocate_times(core, words, times)?;
            Ok(true)
        }
        Deed::Finishes => {
            let _ = finish(core, 0)?;
            Ok(true)
        }
        Deed::StopsAfter(steps) => {
            stop_after(core, steps)?;
            Ok(true)
        }
        other => Ok(is_so(core, other)),
    }
}

/// Whether what the deed says of the machine holds.
fn is_so(core: &Core, deed: Deed) -> bool {
    match deed {
        Deed::Idle(caller) => can_begin(core, caller),
        Deed::Word(name, value) => word(core, name) == Some(value),
        Deed::Counts(caller, turns, won, lost, cleared) => {
            counts(core, caller) == Some((turns, won, lost, cleared))
        }
        Deed::Last(event) => last(core) == Some(event),
        Deed::Events(count) => core.events().len() == count,
        Deed::Told(at, event) => core.events().get(at).copied() == Some(event),
        Deed::Steps(steps) => core.steps() == steps,
        _ => false,
    }
}

/// Plays a script: each deed comes to what it says.
pub fn play<R: Abort>(rt: &R, core: &mut Core, deeds: &[Deed]) -> Result<(), Fail> {
    for (number, deed) in deeds.iter().enumerate() {
        let came = comes_to(core, *deed)?;
        assert!(rt; came, "deed {number}, {} steps so far", core.steps());
    }
    Ok(())
}

/// Opens a machine, as above, and plays a script.
pub fn script<R: Abort>(
    rt: &R,
    alloc: Global,
    geometry: Geometry,
    installed: Option<u8>,
    deeds: &[Deed],
) -> Result<(), Fail> {
    let mut core = open(rt, alloc, geometry, installed)?;
    play(rt, &mut core, deeds)
}
