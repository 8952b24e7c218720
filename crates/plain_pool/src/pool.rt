//! A pool of live blocks that keeps its events, for one caller after another.

ghost use Rattle.std.specs.Prelude.{ℕ, ◌≡◌, ◌<◌, ◌+◌, ◌≤◌, ◌++◌, [], ◌∷◌, IfOk, IfSome, IfNone, OnOk, OnErr};
ghost use Rattle.heap_geometry.specs.Geometry.{IsChecked};
ghost use Rattle.heap_geometry.specs.declared.limits.TheConstants.{CLASSES, SHELVES, MAX_UNITS};
ghost use Rattle.heap_geometry.specs.Need.{need_of};
ghost use Rattle.pool_model.specs.declared.owner.Owner.TheVariants.{Caller};
ghost use Rattle.pool_model.specs.Pool.{Owns, block_at};
ghost use Rattle.pool_model.specs.Legal.{IsLegal};
ghost use Rattle.plain_pool.specs.Plain.{PlainState, AddsEvents, IsChosen, IsFull, OwnsWord, word_in, pool_in};
ghost use Rattle.plain_pool.specs.Answers.{IsAllocated, IsPut, IsTaken, AddsEventsOf, ended_of};

use crate::answers::{PlainAlloc, PlainPut, PlainTake};
use crate::changes::{hand_to, record, remove, store, words_of, write_word};
use crate::live_block::fresh_block;
use crate::marks::{least_gap, least_unmarked};
use crate::places::{Blocks, held_frames, least_beside, place_on_shelf, taken_units};
use heap_geometry::geometry::Geometry;
use heap_geometry::need::{Need, class_of, usable};
use heap_geometry::place::{place_of, place_of_unit};
use pool_model::event::Event;
use pool_model::owner::Owner;
use std::alloc::{AllocError, Global};
use std::marker::Model;

/// A pool of live blocks that keeps its events.
///
/// It gives a small need the least free place of its class in the frames that hold live blocks of
/// that class, else the first place of the least frame without a live block; and a large need the
/// least free run of units.
#[derive(Drop)]
pub struct PlainPool {
    geometry: Geometry,
    alloc: Global,
    blocks: Blocks,
    events: Vec<Event>,
}

impl Model for PlainPool {
    ghost use Rattle.plain_pool.specs.Plain.{PlainState};

    ghost Value = { PlainState };

    ghost use Rattle.plain_pool.specs.Stored.{IsPlainKept};

    ghost view = { λ pool. record { geometry = pool.geometry; events = pool.events.items } };

    ghost invariant = { λ pool. IsPlainKept pool.geometry pool.blocks pool.events.items };
}

impl PlainPool {
    /// An empty pool with no events.
    pub fn open(alloc: Global, geometry: Geometry) -> Result<PlainPool, AllocError>
        requires { IsChecked geometry }
        ensures { IfOk result (λ pool. pool ≡ record { geometry = geometry; events = [] }) }
    {
        Ok(PlainPool {
            geometry,
            alloc,
            blocks: Blocks::new(alloc),
            events: Vec::new(alloc),
        })
    }

    /// The numbers that it was opened with.
    pub fn geometry(&self) -> Geometry
        ensures { result ≡ self.now.geometry }
    {
        self.geometry
    }

    /// All events so far, the first one first.
    pub fn events(&self) -> &[Event]
        ensures value { result.now ≡ self.now.events }
        ensures legal { IsLegal self.now.geometry self.now.events }
    {
        self.events.as_slice()
    }

    /// Gives the caller a block with `need` usable words or more, none of them written.
    pub fn alloc(&mut self, caller: u32, need: u32) -> Result<PlainAlloc, AllocError>
        requires { caller < self.old.geometry.callers }
        ensures ok { IfOk result (IsAllocated self.old self.new caller need) }
        ensures events { IfOk result (λ answer.
            AddsEventsOf self.old self.new caller (ended_of need answer)) }
        ensures legal { IsLegal self.new.geometry self.new.events }
        ensures err { OnErr result (self.new ≡ self.old) }
    {
        match class_of(need) {
            Need::Small(class) => self.alloc_small(caller, need, class),
            Need::Large(units) => self.alloc_run(caller, need, units),
            Need::TooLarge => {
                // Nothing changes; this opens the pool, so that its events are known to be legal.
                let _ = &self.events;
                Ok(PlainAlloc::TooLarge)
            }
        }
    }

    /// Takes the caller's block back.
    pub fn free(&mut self, caller: u32, place: u32) -> Result<(), AllocError>
        requires { Owns (pool_in self.old) (Caller caller) place }
        ensures ok { OnOk result (AddsEvents self.old self.new (Event.Free caller place ∷ [])) }
        ensures legal { IsLegal self.new.geometry self.new.events }
        ensures err { OnErr result (self.new ≡ self.old) }
    {
        self.events.reserve(1)?;
        remove(&mut self.blocks, place);
        record(&mut self.events, Event::Free { caller, place });
        Ok(())
    }

    /// Writes word `i` of the caller's block. The words count from 0, behind the prefix word.
    pub fn write(&mut self, caller: u32, place: u32, i: u32, v: u64) -> Result<(), AllocError>
        requires { OwnsWord (pool_in self.old) caller place i }
        ensures ok { OnOk result (AddsEvents self.old self.new (Event.Write caller place i v ∷ [])) }
        ensures legal { IsLegal self.new.geometry self.new.events }
        ensures err { OnErr result (self.new ≡ self.old) }
    {
        self.events.reserve(1)?;
        write_word(&mut self.blocks, place, i, v);
        record(
            &mut self.events,
            Event::Write {
                caller,
                place,
                i,
                v,
            },
        );
        Ok(())
    }

    /// What word `i` of the caller's block holds, and 0 where it wasn't written.
    pub fn read(&self, caller: u32, place: u32, i: u32) -> u64
        requires { OwnsWord (pool_in self.now) caller place i }
        ensures { result ≡ word_in (block_at place (pool_in self.now)) i }
    {
        match self.blocks.get(&place) {
            Some(block) => block.words[i as usize].unwrap_or(0),
            None => 0,
        }
    }

    /// Puts the caller's block on a shelf where no block lies.
    pub fn put(&mut self, caller: u32, place: u32, shelf: u8) -> Result<PlainPut, AllocError>
        requires owned { Owns (pool_in self.old) (Caller caller) place }
        requires shelf { shelf < SHELVES }
        ensures ok { IfOk result (IsPut self.old self.new caller place shelf) }
        ensures legal { IsLegal self.new.geometry self.new.events }
        ensures err { OnErr result (self.new ≡ self.old) }
    {
        if place_on_shelf(&self.blocks, shelf).is_some() {
            return Ok(PlainPut::Full);
        }
        self.events.reserve(1)?;
        hand_to(&mut self.blocks, place, Owner::Shelf(shelf));
        let event = Event::Put {
            caller,
            place,
            shelf,
        };
        record(&mut self.events, event);
        Ok(PlainPut::Put)
    }

    /// Takes the block that lies on a shelf.
    pub fn take(&mut self, caller: u32, shelf: u8) -> Result<PlainTake, AllocError>
        requires caller { caller < self.old.geometry.callers }
        requires shelf { shelf < SHELVES }
        ensures ok { IfOk result (IsTaken self.old self.new caller shelf) }
        ensures legal { IsLegal self.new.geometry self.new.events }
        ensures err { OnErr result (self.new ≡ self.old) }
    {
        self.events.reserve(1)?;
        let Some(place) = place_on_shelf(&self.blocks, shelf) else {
            record(&mut self.events, Event::TakeNone { caller, shelf });
            return Ok(PlainTake::Empty);
        };
        let words = words_of(&self.blocks, place);
        hand_to(&mut self.blocks, place, Owner::Caller(caller));
        let event = Event::Take {
            caller,
            shelf,
            place,
        };
        record(&mut self.events, event);
        Ok(PlainTake::Got { place, words })
    }

    /// Gives the caller a block of the class, or refuses it after one look.
    fn alloc_small(&mut self, caller: u32, need: u32, class: u8) -> Result<PlainAlloc, AllocError>
        requires caller { caller < self.old.geometry.callers }
        requires class { need_of need ≡ Need.Small class }
        ensures ok { IfOk result (IsAllocated self.old self.new caller need) }
        ensures legal { IsLegal self.new.geometry self.new.events }
        ensures err { OnErr result (self.new ≡ self.old) }
    {
        if let Some(place) = self.small_place(class) {
            return self.give(caller, need, place);
        }
        self.events.reserve(2)?;
        record(&mut self.events, Event::Looked { caller, class });
        record(&mut self.events, Event::Refuse { caller, need });
        Ok(PlainAlloc::Refused)
    }

    /// Gives the caller a run of units, or refuses it.
    fn alloc_run(&mut self, caller: u32, need: u32, units: u8) -> Result<PlainAlloc, AllocError>
        requires caller { caller < self.old.geometry.callers }
        requires units { need_of need ≡ Need.Large units }
        ensures ok { IfOk result (IsAllocated self.old self.new caller need) }
        ensures legal { IsLegal self.new.geometry self.new.events }
        ensures err { OnErr result (self.new ≡ self.old) }
    {
        if let Some(place) = self.run_place(units) {
            return self.give(caller, need, place);
        }
        self.events.reserve(1)?;
        record(&mut self.events, Event::Refuse { caller, need });
        Ok(PlainAlloc::Refused)
    }

    /// The place that it gives for a block of the class.
    fn small_place(&self, class: u8) -> Option<u32>
        requires { class < CLASSES }
        ensures found { IfSome result
            (IsChosen self.now.geometry (pool_in self.now) (Need.Small class)) }
        ensures none { IfNone result
            (IsFull self.now.geometry (pool_in self.now) (Need.Small class)) }
    {
        if let Some(place) = least_beside(&self.blocks, class) {
            return Some(place);
        }
        let held = held_frames(&self.blocks);
        let frame = least_unmarked(&held[..self.geometry.frames as usize])?;
        Some(place_of(frame as u32, class, 0))
    }

    /// The place that it gives for a run of units.
    fn run_place(&self, units: u8) -> Option<u32>
        requires some { 0 < units }
        requires within { units ≤ MAX_UNITS }
        ensures found { IfSome result
            (IsChosen self.now.geometry (pool_in self.now) (Need.Large units)) }
        ensures none { IfNone result
            (IsFull self.now.geometry (pool_in self.now) (Need.Large units)) }
    {
        let taken = taken_units(&self.blocks, self.geometry.frames);
        let unit = least_gap(&taken[..self.geometry.units as usize], usize::from(units))?;
        Some(place_of_unit(self.geometry.frames, unit as u32))
    }

    /// Gives the caller the block at the chosen place.
    fn give(&mut self, caller: u32, need: u32, place: u32) -> Result<PlainAlloc, AllocError>
        requires caller { caller < self.old.geometry.callers }
        requires chosen { IsChosen self.old.geometry (pool_in self.old) (need_of need) place }
        ensures ok { IfOk result (IsAllocated self.old self.new caller need) }
        ensures legal { IsLegal self.new.geometry self.new.events }
        ensures err { OnErr result (self.new ≡ self.old) }
    {
        let serves = class_of(need);
        let block = fresh_block(self.alloc, serves, caller)?;
        self.events.reserve(1)?;
        store(&mut self.blocks, place, block)?;
        let event = Event::Alloc {
            caller,
            need,
            place,
        };
        record(&mut self.events, event);
        let words = usable(serves);
        Ok(PlainAlloc::Given { place, words })
    }
}
