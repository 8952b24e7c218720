//! The event that a step adds to the history.

ghost use Rattle.std.specs.Prelude.{◌≡◌};
ghost use Rattle.step_parts.specs.large.Points.{first_wanted};
ghost use Rattle.errand_steps.specs.tables.Blocks.{block_event};
ghost use Rattle.errand_steps.specs.tables.Stacks.{stack_event, empty_event};
ghost use Rattle.errand_steps.specs.tables.LargeBlocks.{large_event, run_event};
ghost use Rattle.errand_steps.specs.Events.{won_event, event_of};

use crate::continuation::asked;
use crate::point::Point;
use heap_geometry::place::place_of_unit;
use pool_model::event::Event;
use step_parts::large::point::LargePoint;
use step_parts::large::want::Want;
use step_parts::stack::point::{Pile, StackPoint};
use step_parts::superblock::point::BlockPoint;
use word_table::action::Found;

/// The event of the step in which this caller's action found this; `None` where the step makes none.
#[tactic(auto, unfolding(crate::specs::Events::event_of))]
pub fn event_of(caller: u32, point: &Point, found: Found) -> Option<Event>
    ensures { result ≡ event_of caller point.now found }
{
    if found.won {
        won_event(caller, point)
    } else {
        None
    }
}

/// The event of a point's action where it isn't lost.
fn won_event(caller: u32, point: &Point) -> Option<Event>
    ensures { result ≡ won_event caller point.now }
{
    match *point {
        Point::Idle | Point::Desc { .. } | Point::Partial { .. } => None,
        Point::Block { at, continuation } => block_event(caller, asked(continuation), at),
        Point::Stack { at, continuation } => stack_event(caller, asked(continuation), at),
        Point::Large { at, continuation } => large_event(caller, asked(continuation), at),
    }
}

/// In a superblock: a pop and the install of a new superblock give a block, a push frees one.
fn block_event(caller: u32, need: u32, at: BlockPoint) -> Option<Event>
    ensures { result ≡ block_event caller need at }
{
    match at {
        BlockPoint::PopBlock { site, anchor, .. } => Some(Event::Alloc {
            caller,
            need,
            place: site.place(anchor.avail()),
        }),
        BlockPoint::InstallSuperblock { site } => Some(Event::Alloc {
            caller,
            need,
            place: site.place(0),
        }),
        BlockPoint::PushBlock { site, index, .. } => Some(Event::Free {
            caller,
            place: site.place(index),
        }),
        _ => None,
    }
}

/// At a stack: that there is no partial superblock is a look that found none, that there is no frame
/// is a refusal.
fn stack_event(caller: u32, need: u32, at: StackPoint) -> Option<Event>
    ensures { result ≡ stack_event caller need at }
{
    match at {
        StackPoint::ConfirmEmpty { seat, pile, .. } => Some(match pile {
            Pile::Frames => Event::Refuse { caller, need },
            Pile::Partials => Event::Looked {
                caller,
                class: seat.class(),
            },
        }),
        _ => None,
    }
}

/// At a large block, a usable word or a shelf.
fn large_event(caller: u32, need: u32, at: LargePoint) -> Option<Event>
    ensures { result ≡ large_event caller need at }
{
    match at {
        LargePoint::TakeRun { want, bits } => Some(run_event(caller, need, want, bits)),
        LargePoint::FreeRun { place, .. } => Some(Event::Free { caller, place }),
        LargePoint::StoreWord {
            place,
            index,
            value,
        } => Some(Event::Write {
            caller,
            place,
            i: index,
            v: value,
        }),
        LargePoint::PutBlock { shelf, place, .. } => Some(Event::Put {
            caller,
            place,
            shelf,
        }),
        LargePoint::TakeBlock { shelf, place, .. } => Some(Event::Take {
            caller,
            shelf,
            place,
        }),
        LargePoint::ConfirmNothing { shelf } => Some(Event::TakeNone { caller, shelf }),
        _ => None,
    }
}

/// A run is given where there is one.
fn run_event(caller: u32, need: u32, want: Want, bits: u64) -> Event
    ensures { result ≡ run_event caller need want (first_wanted want bits) }
{
    match want.first(bits) {
        Some(first) => Event::Alloc {
            caller,
            need,
            place: place_of_unit(want.geometry().frames, u32::from(first)),
        },
        None => Event::Refuse { caller, need },
    }
}
