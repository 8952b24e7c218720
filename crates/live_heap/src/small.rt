//! Calls on blocks of a superblock, the common ways by strides.

ghost use Rattle.std.specs.Prelude.{◌≡◌, ◌≢◌, ◌<◌, IfErr, IfOk, Some, false};
ghost use Rattle.heap_geometry.specs.Need.{need_of};
ghost use Rattle.heap_geometry.specs.declared.limits.TheConstants.{CLASSES};
ghost use Rattle.heap_geometry.specs.declared.need.Need.TheVariants.{Small};
ghost use Rattle.errand_steps.specs.Begins.{IsHeapBlock, IsIdle};
ghost use Rattle.errand_steps.specs.Calls.{alloc, free};
ghost use Rattle.errand_steps.specs.Errands.{is_spent};
ghost use Rattle.errand_steps.specs.declared.continuation.Continuation.TheVariants as continuation;
ghost use Rattle.sound_state.specs.Runs.{MayBegin};
ghost use Rattle.live_heap.specs.declared.pass.Pass.{Pass};
ghost use Rattle.live_heap.specs.declared.answers.AllocAnswer.{AllocAnswer};
ghost use Rattle.live_heap.specs.Answers.{AllocTells, FreeTells};
ghost use Rattle.live_heap.specs.Calls.{IsCalling};
ghost use Rattle.live_heap.specs.Going.{HasAllocated, HasFreed, HasGone, IsWalking, Rejoins};
ghost use Rattle.live_heap.specs.Passes.{IsHome, IsOf, seen};
ghost use Rattle.live_heap.specs.Sights.{after_events};

use crate::answers::{AllocAnswer, FreeAnswer};
use crate::block::Block;
use crate::calls::alloc_ended;
use crate::heap::Heap;
use crate::pass::Pass;
use crate::shelves::ShelfRule;
use crate::strides::Expected;
use errand_steps::continuation::Continuation;
use errand_steps::told::Ending;
use step_parts::superblock::point::BlockPoint;
use word_table::action::Found;

impl<R: ShelfRule> Heap<R> {
    /// The free of a block of a superblock.
    #[inline(always)]
    pub(crate) fn free_small(
        &self,
        pass: &mut Pass,
        block: Block,
        class: u8,
        tries: u32,
    ) -> FreeAnswer
        requires of { IsOf self.now pass.old }
        requires idle { IsIdle pass.old.errand }
        requires small { block.need ≡ Small class }
        requires may { MayBegin (after_events (seen pass.old)) pass.old.errand.caller (free block.place (Small class)) }
        requires block { IsHeapBlock pass.old.errand.geometry block.place (Small class) }
        requires home { IsHome pass.old block.place }
        requires tries { 0 < tries }
        ensures of { IsOf self.now pass.new }
        ensures tells { FreeTells pass.old block tries result pass.new }
    {
        let prefix = pass.errand.free_from(block.place, class);
        self.free_on(pass, prefix, tries)
    }

    /// The same from its first point.
    #[inline(always)]
    fn free_on(&self, pass: &mut Pass, prefix: BlockPoint, tries: u32) -> FreeAnswer
        ghost start: { Pass }
        requires { IsWalking self.now start tries prefix continuation.Free pass.old }
        ensures { HasFreed self.now start tries result pass.new }
    {
        match self.free_straight(pass, prefix, tries) {
            Ok(_) => FreeAnswer::Freed,
            Err(found) => self.free_away(pass, found.value, found.won, tries),
        }
    }

    /// Goes on with a free whose way is not straight, from a step that found this. The answer is the one of
    /// `free` itself, so that the straight way keeps no room for what another way comes to.
    #[cold]
    #[inline(never)]
    fn free_away(&self, pass: &mut Pass, value: u64, won: bool, tries: u32) -> FreeAnswer
        ghost start: { Pass }
        requires tries { 0 < tries }
        requires joins { Rejoins self.now start tries (record { value = value; won = won }) pass.old }
        ensures { HasFreed self.now start tries result pass.new }
    {
        match self.rejoin(pass, Found { value, won }, tries) {
            Some(_) => FreeAnswer::Freed,
            None => FreeAnswer::Busy,
        }
    }

    /// The free by strides, from its first point.
    #[inline(always)]
    fn free_straight(
        &self,
        pass: &mut Pass,
        prefix: BlockPoint,
        tries: u32,
    ) -> Result<Ending<Block>, Found>
        ghost start: { Pass }
        requires { IsWalking self.now start tries prefix continuation.Free pass.old }
        ensures ends { IfOk result (λ ending. HasGone self.now start tries (Some ending) pass.new) }
        ensures off { IfErr result (λ found. Rejoins self.now start tries found pass.new) }
    {
        let mut at = prefix;
        self.stride(
            pass,
            &mut at,
            &Continuation::Free,
            tries,
            Expected::LoadPushAnchor,
        )?;
        self.stride(
            pass,
            &mut at,
            &Continuation::Free,
            tries,
            Expected::StoreLinkOrGuard,
        )?;
        self.guard_last(pass, &mut at, tries)?;
        self.stride(
            pass,
            &mut at,
            &Continuation::Free,
            tries,
            Expected::PushBlock,
        )?;
        self.finish(pass, &at, &Continuation::Free, tries)
    }

    /// Guards the superblock where the block is the last one of it in use.
    #[inline(always)]
    fn guard_last(&self, pass: &mut Pass, at: &mut BlockPoint, tries: u32) -> Result<(), Found>
        ghost start: { Pass }
        requires { IsWalking self.now start tries at.old continuation.Free pass.old }
        ensures on { IfOk result (λ gone. IsWalking self.now start tries at.new continuation.Free pass.new) }
        ensures off { IfErr result (λ found. Rejoins self.now start tries found pass.new) }
    {
        if !matches!(*at, BlockPoint::StoreGuard { .. }) {
            return Ok(());
        }
        self.stride(pass, at, &Continuation::Free, tries, Expected::LoadOwner)?;
        self.stride(pass, at, &Continuation::Free, tries, Expected::StoreLink)
    }

    /// The allocation of a block of a superblock.
    #[inline(always)]
    pub(crate) fn alloc_small(
        &self,
        pass: &mut Pass,
        need: u32,
        class: u8,
        tries: u32,
    ) -> AllocAnswer
        requires of { IsOf self.now pass.old }
        requires idle { IsIdle pass.old.errand }
        requires class { need_of need ≡ Small class }
        requires has { class < CLASSES }
        requires left { is_spent pass.old.errand ≡ false }
        requires tries { 0 < tries }
        ensures of { IsOf self.now pass.new }
        ensures fits { result ≢ AllocAnswer.TooLarge }
        ensures tells { AllocTells pass.old need tries result pass.new }
    {
        let active = pass.errand.alloc_from(class);
        pass.errand.take_turn();
        self.alloc_on(pass, active, need, tries)
    }

    /// The same from its first point.
    #[inline(always)]
    fn alloc_on(&self, pass: &mut Pass, active: BlockPoint, need: u32, tries: u32) -> AllocAnswer
        ghost start: { Pass }
        requires walks { IsWalking self.now start tries active (continuation.Alloc need) pass.old }
        requires calling { (first : Pass) × IsCalling first (alloc need) 0 start }
        ensures { HasAllocated self.now start tries result pass.new }
    {
        match self.alloc_straight(pass, active, need, tries) {
            Ok(ending) => alloc_ended(ending),
            Err(found) => self.alloc_away(pass, found.value, found.won, need, tries),
        }
    }

    /// Goes on with an allocation whose way is not straight, as `free_away` does with a free.
    #[cold]
    #[inline(never)]
    fn alloc_away(
        &self,
        pass: &mut Pass,
        value: u64,
        won: bool,
        _need: u32,
        tries: u32,
    ) -> AllocAnswer
        ghost start: { Pass }
        requires tries { 0 < tries }
        requires calling { (first : Pass) × IsCalling first (alloc _need) 0 start }
        requires joins { Rejoins self.now start tries (record { value = value; won = won }) pass.old }
        ensures { HasAllocated self.now start tries result pass.new }
    {
        match self.rejoin(pass, Found { value, won }, tries) {
            Some(ending) => alloc_ended(ending),
            None => AllocAnswer::Busy,
        }
    }

    /// The allocation by strides, from its first point.
    #[inline(always)]
    fn alloc_straight(
        &self,
        pass: &mut Pass,
        active: BlockPoint,
        need: u32,
        tries: u32,
    ) -> Result<Ending<Block>, Found>
        ghost start: { Pass }
        requires { IsWalking self.now start tries active (continuation.Alloc need) pass.old }
        ensures ends { IfOk result (λ ending. HasGone self.now start tries (Some ending) pass.new) }
        ensures off { IfErr result (λ found. Rejoins self.now start tries found pass.new) }
    {
        let goes = Continuation::Alloc { need };
        let mut at = active;
        self.stride(pass, &mut at, &goes, tries, Expected::TakeCredit)?;
        self.stride(pass, &mut at, &goes, tries, Expected::LoadInfo)?;
        self.stride(pass, &mut at, &goes, tries, Expected::LoadAnchor)?;
        self.stride(pass, &mut at, &goes, tries, Expected::LoadLink)?;
        self.stride(pass, &mut at, &goes, tries, Expected::PopBlock)?;
        self.stride(pass, &mut at, &goes, tries, Expected::StorePrefixOrInstall)?;
        self.offer_credits(pass, &mut at, &goes, tries)?;
        self.finish(pass, &at, &goes, tries)
    }

    /// Offers the blocks that were reserved behind a pop, where there are any.
    #[inline(always)]
    fn offer_credits(
        &self,
        pass: &mut Pass,
        at: &mut BlockPoint,
        goes: &Continuation,
        tries: u32,
    ) -> Result<(), Found>
        ghost start: { Pass }
        requires { IsWalking self.now start tries at.old goes.now pass.old }
        ensures on { IfOk result (λ gone. IsWalking self.now start tries at.new goes.now pass.new) }
        ensures off { IfErr result (λ found. Rejoins self.now start tries found pass.new) }
    {
        if !matches!(*at, BlockPoint::InstallCredits { .. }) {
            return Ok(());
        }
        self.stride(pass, at, goes, tries, Expected::StorePrefix)
    }
}
