//! A heap on one thread, with a hand for each caller.

ghost use Rattle.std.specs.Prelude.{IfOk, IfSome};
ghost use Rattle.heap_geometry.specs.Geometry.{IsChecked};
ghost use Rattle.live_heap.specs.Endings.{AreAllIdle};
ghost use Rattle.live_heap.specs.Hands.{IsHand};
ghost use Rattle.live_heap.specs.Passes.{AreFrom};
ghost use Rattle.heap_scripts.specs.Sides.{AreHands};

use crate::request::{Request, Told};
use crate::script::Script;
use crate::stepped::{self, Pace};
use crate::whole;
use heap_geometry::geometry::Geometry;
use live_heap::block::Block;
use live_heap::closed::Closed;
use live_heap::heap::Heap;
use live_heap::pass::Pass;
use std::alloc::{AllocError, Global};

/// A pass with the blocks in its hand.
#[derive(Drop)]
pub(crate) struct Hand {
    pass: Pass,
    blocks: Vec<Block>,
}

/// A heap, the hands of its callers in the order of their numbers, and how many steps were made one by one.
#[derive(Drop)]
pub(crate) struct Side {
    heap: Heap,
    hands: Vec<Hand>,
    steps: u64,
}

/// How a call is made.
#[derive(Clone, Copy)]
pub(crate) enum Way {
    /// As a whole, with so many tries, and one at least.
    Whole(u32),
    /// Step by step.
    Steps(Pace),
}

/// What a pass says of itself.
#[derive(Clone, Copy, PartialEq, Eq)]
pub(crate) struct Counts {
    idle: bool,
    turns: u64,
    won: u64,
    lost: u64,
    cleared: u64,
}

impl Side {
    ghost use Rattle.std.specs.Prelude.{IfOk};
    ghost use Rattle.heap_scripts.specs.Sides.{IsSide};

    /// A new heap, whose callers' hands are empty.
    pub(crate) fn open(alloc: Global, geometry: Geometry) -> Result<Side, AllocError>
        requires { IsChecked geometry }
        ensures { IfOk result (λ side. IsSide side) }
    {
        let (heap, passes) = Heap::open(alloc, geometry)?;
        let hands = hands_of(alloc, &heap, passes)?;
        Ok(Side {
            heap,
            hands,
            steps: 0,
        })
    }

    /// How many steps were made one by one.
    pub(crate) fn steps(&self) -> u64 {
        self.steps
    }

    /// How many empty superblocks the callers cleared.
    pub(crate) fn cleared(&self) -> u64 {
        let mut cleared: u64 = 0;
        for hand in &self.hands {
            cleared = cleared.saturating_add(hand.pass.cleared());
        }
        cleared
    }

    /// What the script asks next of this caller.
    pub(crate) fn ask(&self, who: usize, script: &mut Script) -> Option<Request> {
        let hand = self.hands.get(who)?;
        Some(script.request(hand.pass.idle(), hand.blocks.as_slice()))
    }

    /// What the caller's pass says of itself.
    pub(crate) fn counts(&self, who: usize) -> Option<Counts> {
        let pass = &self.hands.get(who)?.pass;
        Some(Counts {
            idle: pass.idle(),
            turns: pass.turns(),
            won: pass.won(),
            lost: pass.lost(),
            cleared: pass.cleared(),
        })
    }

    /// A call of this caller.
    pub(crate) fn make(
        &mut self,
        who: usize,
        request: Request,
        way: Way,
    ) -> Result<Option<Told>, AllocError>
        requires { IsSide self.old }
        ensures { IsSide self.new }
    {
        if who >= self.hands.len() {
            return Ok(None);
        }
        make(
            &self.heap,
            &mut self.hands[who],
            request,
            way,
            &mut self.steps,
        )
    }

    /// What is left of the heap, where all callers are in no call.
    pub(crate) fn close(self, alloc: Global) -> Result<Option<Closed>, AllocError>
        requires { IsSide self }
    {
        let Side {
            heap,
            hands,
            steps: _,
        } = self;
        match idle_passes(alloc, &heap, hands)? {
            Some(passes) => Ok(heap.close(alloc, passes).ok()),
            None => Ok(None),
        }
    }
}

/// An empty hand for each pass.
fn hands_of(alloc: Global, _heap: &Heap, passes: Vec<Pass>) -> Result<Vec<Hand>, AllocError>
    requires { AreFrom _heap.now 0 passes.items }
    ensures { IfOk result (λ hands. AreHands _heap.now hands.items) }
{
    let mut hands = Vec::new(alloc);
    for pass in passes {
        hands.push(Hand {
            pass,
            blocks: Vec::new(alloc),
        })?;
    }
    Ok(hands)
}

/// The passes of all callers, where these are in no call.
fn idle_passes(
    alloc: Global,
    heap: &Heap,
    hands: Vec<Hand>,
) -> Result<Option<Vec<Pass>>, AllocError>
    requires { AreHands heap.now hands.items }
    ensures { IfOk result (λ found. IfSome found (λ passes. AreAllIdle heap.now passes.items)) }
{
    let mut passes = Vec::new(alloc);
    for hand in hands {
        let Hand { pass, blocks: _ } = hand;
        if !pass.idle() {
            return Ok(None);
        }
        passes.push(pass)?;
    }
    if passes.len() != heap.geometry().callers as usize {
        return Ok(None);
    }
    Ok(Some(passes))
}

/// A call on a hand.
fn make(
    heap: &Heap,
    hand: &mut Hand,
    request: Request,
    way: Way,
    steps: &mut u64,
) -> Result<Option<Told>, AllocError>
    requires { IsHand heap.now hand.old.pass hand.old.blocks.items }
    ensures { IsHand heap.now hand.new.pass hand.new.blocks.items }
{
    match way {
        Way::Whole(tries) => whole::make(
            heap,
            &mut hand.pass,
            &mut hand.blocks,
            request,
            tries.max(1),
        ),
        Way::Steps(pace) => stepped::make(
            heap,
            &mut hand.pass,
            &mut hand.blocks,
            request,
            pace,
            steps,
        ),
    }
}
