//! The rule of the places, and what the steps on them tell.

use atomic_table::{Play, Split, TableRule};
use live_heap::heap::Heap;
use live_heap::pass::Pass;
use std::alloc::Global;
use std::sync::Arc;

/// What lies in a place: a pass that was given back, with its owner's share in the heap.
#[derive(Drop)]
pub struct Given {
    pub(crate) pass: Pass,
    pub(crate) share: Arc<Heap, Global>,
}

/// What a seat of the places is for. Proofs alone speak of it; no value of it is made.
pub enum Stand {
    /// It hands out the places from this one on.
    Deals(u32),
    /// It is the ticket for this place.
    Waits(u32),
    /// It has taken this place, to lay a pass there.
    Takes(u32),
    /// It has laid this pass into the place of the pass's caller.
    Laid(Given),
    /// It has laid this pass there, and counted it: so many were counted before.
    Counted(Given, u64),
}

/// Each place is one seat's alone, what was laid there stays there until all passes are counted, and each is counted once.
pub struct GivenBack;

impl TableRule<Option<Given>, (Heap, Stand), Heap> for GivenBack {
    ghost use Rattle.shared_heap.specs.declared.places.Stand.TheVariants as stand;
    ghost use Rattle.shared_heap.specs.Places.{PlacesHold};

    ghost holds = { PlacesHold };

    ghost first = { λ heap. (heap, stand.Deals 0) };
}

/// One seat goes on handing out places, and the next place is the other's.
pub struct Deals;

impl Split<(Heap, Stand)> for Deals {
    ghost use Rattle.shared_heap.specs.Places.{next_of, rest_of};

    ghost left = { rest_of };

    ghost right = { next_of };
}

/// A step that takes a place, in which nothing lies.
pub struct Takes;

impl Play<Option<Given>, (Heap, Stand)> for Takes {
    ghost use Rattle.shared_heap.specs.Places.{HasTaken};

    ghost then = { λ step before found after. HasTaken step.word before after };
}

/// A step that leaves a pass in a place.
pub struct Lays;

impl Play<Option<Given>, (Heap, Stand)> for Lays {
    ghost use Rattle.shared_heap.specs.Places.{HasLaid};

    ghost then = { λ step before found after. HasLaid step.word before after };
}

/// A step that counts a pass that was laid. The last one takes all of them out of their places.
pub struct Counts;

impl Play<Option<Given>, (Heap, Stand)> for Counts {
    ghost use Rattle.shared_heap.specs.Counted.{HasCounted};

    ghost then = { λ step before found after. HasCounted before found after };
}
