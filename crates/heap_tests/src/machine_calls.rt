//! Each call of a lane's once, on a machine: what its steps tell. Numbers of steps, places and words are
//! worked by hand, or come from a model of the machine that was written apart from it.

ghost use Rattle.std.specs.Prelude.{◌<◌, IsTrue};
ghost use Rattle.errand_steps.specs.Begins.{IsIdle};
ghost use Rattle.step_machine.specs.Cores.{errand_at, OwnsBlock};

use errand_steps::reply::Begun;
use errand_steps::told::{Ending, Stepped};
use heap_geometry::limits::{CALL_STEPS, SHELVES};
use heap_geometry::need::Need;
use heap_scripts::alone::geometry;
use lane_engine::grip::Grip;
use lane_engine::over_core::step;
use pool_model::owner::Owner;
use std::alloc::AllocError;
use std::process::Abort;
use std::test::Fail;
use step_machine::machine::Core;
use step_machine::token::Token;

/// What is asked of a block.
#[derive(Clone, Copy, Debug)]
enum Request {
    Free,
    Write(u32, u64),
    Read(u32),
    Put(u8),
}

/// Steps of a caller to the end of its call: how many it makes, and what the last one came to.
fn finish(core: &mut Core, caller: u32) -> Result<(u64, Stepped<Grip>), AllocError>
    requires { caller < core.old.geometry.callers }
{
    // The steps stand on what the machine's type keeps.
    let _ = core.steps();
    let mut last = Stepped::Idle;
    for made in 0..CALL_STEPS {
        last = step(core, caller)?;
        match last {
            Stepped::More | Stepped::Lost | Stepped::Cleared => {}
            _ => return Ok((made + 1, last)),
        }
    }
    Ok((CALL_STEPS, last))
}

/// An allocation from its begin to its end; `None` where it doesn't begin.
fn allocate(
    core: &mut Core,
    caller: u32,
    need: u32,
) -> Result<Option<(u64, Stepped<Grip>)>, AllocError>
    requires caller { caller < core.old.geometry.callers }
    requires idle { IsIdle (errand_at core.old.errands caller) }
{
    match core.begin_alloc(caller, need) {
        Begun::Started => Ok(Some(finish(core, caller)?)),
        _ => Ok(None),
    }
}

/// A call on a block from its begin to its end; `None` where the word or the shelf isn't there.
fn complete(
    core: &mut Core,
    caller: u32,
    held: &Grip,
    request: Request,
) -> Result<Option<(u64, Stepped<Grip>)>, AllocError>
    requires caller { caller < core.old.geometry.callers }
    requires idle { IsIdle (errand_at core.old.errands caller) }
    requires owned { OwnsBlock core.old caller held.now.place held.now.need }
{
    let place = held.place;
    let need = held.need;
    match request {
        Request::Free => core.begin_free(caller, place, need),
        Request::Write(i, v) if i < held.words() => core.begin_write(caller, place, need, i, v),
        Request::Read(i) if i < held.words() => core.begin_read(caller, place, need, i),
        Request::Put(shelf) if shelf < SHELVES => core.begin_put(caller, place, need, shelf),
        _ => return Ok(None),
    }
    Ok(Some(finish(core, caller)?))
}

/// A take from its begin to its end; `None` where the shelf isn't there.
fn take(core: &mut Core, caller: u32, shelf: u8) -> Result<Option<(u64, Stepped<Grip>)>, AllocError>
    requires caller { caller < core.old.geometry.callers }
    requires idle { IsIdle (errand_at core.old.errands caller) }
{
    if shelf >= SHELVES {
        return Ok(None);
    }
    core.begin_take(caller, shelf);
    Ok(Some(finish(core, caller)?))
}

/// Whether the machine has a caller 0, and that is idle.
fn can_begin(core: &Core) -> bool
    ensures caller { IsTrue result → 0 < core.now.geometry.callers }
    ensures idle { IsTrue result → IsIdle (errand_at core.now.errands 0) }
{
    core.geometry().callers > 0 && core.idle(0)
}

/// Whether the events tell that caller 0 owns the block.
fn owns(core: &Core, grip: &Grip) -> bool
    ensures { IsTrue result → OwnsBlock core.now 0 grip.now.place grip.now.need }
{
    match core.block_at(grip.place) {
        Some((need, owner)) => need == grip.need && owner == Owner::Caller(0),
        None => false,
    }
}

/// The blocks that are held here.
#[derive(Clone, Copy, Debug)]
enum Size {
    /// Those of 3 words.
    Three,
    /// Those of 2,047 words, the largest class.
    Widest,
}

/// The block of this size at this place.
fn grip(place: u32, size: Size) -> Grip {
    match size {
        Size::Three => Grip {
            place,
            need: Need::Small(1),
        },
        Size::Widest => Grip {
            place,
            need: Need::Small(10),
        },
    }
}

/// A whole call of caller 0's.
#[derive(Clone, Copy, Debug)]
enum Call {
    Alloc(u32),
    /// A call on the block of this size at this place.
    On(u32, Size, Request),
    Take(u8),
}

/// The call from its begin to its end; `None` where it can't be made.
fn make(core: &mut Core, call: Call) -> Result<Option<(u64, Stepped<Grip>)>, AllocError> {
    if !can_begin(core) {
        return Ok(None);
    }
    match call {
        Call::Alloc(need) => allocate(core, 0, need),
        Call::On(place, size, request) => {
            let held = grip(place, size);
            if owns(core, &held) {
                complete(core, 0, &held, request)
            } else {
                Ok(None)
            }
        }
        Call::Take(shelf) => take(core, 0, shelf),
    }
}

/// A call, how many steps it makes, and what the last one comes to.
type Row = (Call, (u64, Stepped<Grip>));

/// These calls, one after the other, come to this.
fn come_to<R: Abort>(rt: &R, core: &mut Core, rows: &[Row]) -> Result<(), Fail> {
    for (call, answer) in rows {
        let made = make(core, *call)?;
        assert!(rt; made.as_ref() == Some(answer), "{call:?}");
    }
    Ok(())
}

#[test]
fn blocks_are_given_and_freed(rt: HostRuntime) -> Result<(), Fail> {
    let mut core = Core::open(rt.alloc(), geometry(2, 0, 1, 9))?;
    let rows = [
        (
            Call::Alloc(2047),
            (19, Stepped::Done(Ending::Given(grip(0, Size::Widest)))),
        ),
        (
            Call::Alloc(2047),
            (7, Stepped::Done(Ending::Given(grip(2048, Size::Widest)))),
        ),
        (
            Call::On(0, Size::Widest, Request::Free),
            (6, Stepped::Done(Ending::Freed)),
        ),
        (
            Call::On(2048, Size::Widest, Request::Free),
            (12, Stepped::Done(Ending::Freed)),
        ),
    ];
    come_to(&rt, &mut core, &rows)?;
    let second = grip(2048, Size::Widest);
    assert_eq!(rt;
        (second.words(), second.place(), second.need()),
        (2047, 2048, Need::Small(10))
    );
    Ok(())
}

#[test]
fn words_are_read_as_written_and_shelves_hold_one_block(rt: HostRuntime) -> Result<(), Fail> {
    let mut core = Core::open(rt.alloc(), geometry(4, 0, 1, 9))?;
    let rows = [
        (
            Call::Alloc(3),
            (1041, Stepped::Done(Ending::Given(grip(0, Size::Three)))),
        ),
        (
            Call::On(0, Size::Three, Request::Write(0, 5)),
            (1, Stepped::Done(Ending::Wrote)),
        ),
        (
            Call::On(0, Size::Three, Request::Write(1, 6)),
            (1, Stepped::Done(Ending::Wrote)),
        ),
        (
            Call::On(0, Size::Three, Request::Write(2, 7)),
            (1, Stepped::Done(Ending::Wrote)),
        ),
        (
            Call::On(0, Size::Three, Request::Read(0)),
            (1, Stepped::Done(Ending::Word(5))),
        ),
        (
            Call::On(0, Size::Three, Request::Read(1)),
            (1, Stepped::Done(Ending::Word(6))),
        ),
        (
            Call::On(0, Size::Three, Request::Read(2)),
            (1, Stepped::Done(Ending::Word(7))),
        ),
        (
            Call::On(0, Size::Three, Request::Put(0)),
            (1, Stepped::Done(Ending::Put)),
        ),
        (
            Call::Alloc(3),
            (7, Stepped::Done(Ending::Given(grip(4, Size::Three)))),
        ),
        (
            Call::On(4, Size::Three, Request::Put(0)),
            (
                1,
                Stepped::Done(Ending::Full {
                    block: grip(4, Size::Three),
                    found: 129,
                }),
            ),
        ),
        (
            Call::On(4, Size::Three, Request::Write(0, 8)),
            (1, Stepped::Done(Ending::Wrote)),
        ),
        (
            Call::Take(0),
            (2, Stepped::Done(Ending::Got(grip(0, Size::Three)))),
        ),
        (Call::Take(1), (2, Stepped::Done(Ending::Empty))),
    ];
    come_to(&rt, &mut core, &rows)
}
