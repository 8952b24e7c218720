//! What events tell of the block at a place.

ghost use Rattle.std.specs.Prelude.{◌≡◌};
ghost use Rattle.heap_geometry.specs.declared.geometry.Geometry.{Geometry};
ghost use Rattle.pool_model.specs.Legal.{IsLegalWithoutCounts};
ghost use Rattle.pool_model.specs.Pool.{block_at, pool_of};
ghost use Rattle.step_machine.specs.Seen.{seen, owner_or, look_of};

use heap_geometry::need::{Need, class_of};
use pool_model::event::Event;
use pool_model::owner::Owner;

/// What is known of the block at a place, when the events are looked through from the last one back.
#[derive(Clone, Copy)]
pub(crate) enum Look {
    /// What it serves and who owns it, or that none is live.
    Known(Option<(Need, Owner)>),
    /// The earlier events tell, but for the owner where one is named.
    Further(Option<Owner>),
}

/// What the block at this place serves and who owns it, after a legal history; `None` where none is live
/// there. Looks from the last event back to the one that gave the block, or took it away.
pub fn seen_at(events: &[Event], place: u32) -> Option<(Need, Owner)>
    requires { (g : Geometry) × IsLegalWithoutCounts g events.now }
    ensures { result ≡ seen (block_at place (pool_of events.now)) }
{
    let mut last = None;
    for back in 0..events.len() {
        match look_at(events[events.len() - 1 - back], place, last) {
            Look::Known(live) => return live,
            Look::Further(owner) => last = owner,
        }
    }
    None
}

/// What an event tells of the block at a place, where the events behind it name this last owner.
fn look_at(event: Event, place: u32, last: Option<Owner>) -> Look
    ensures { result ≡ look_of event place last }
{
    match event {
        Event::Alloc {
            caller,
            need,
            place: at,
        } if at == place => {
            Look::Known(Some((class_of(need), owner_or(last, Owner::Caller(caller)))))
        }
        Event::Free { place: at, .. } if at == place => Look::Known(None),
        Event::Put {
            place: at,
            shelf,
            ..
        } if at == place => Look::Further(Some(owner_or(last, Owner::Shelf(shelf)))),
        Event::Take {
            caller,
            place: at,
            ..
        } if at == place => Look::Further(Some(owner_or(last, Owner::Caller(caller)))),
        _ => Look::Further(last),
    }
}

/// The last owner, or this one where none is named behind it.
fn owner_or(last: Option<Owner>, owner: Owner) -> Owner
    ensures { result ≡ owner_or last owner }
{
    match last {
        Some(last) => last,
        None => owner,
    }
}
