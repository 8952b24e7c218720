//! Steps that a call makes without its errand, which stands for them in the proof alone, and how it goes on
//! by it.

ghost use Rattle.std.specs.Prelude.{◌≡◌, ◌<◌};
ghost use Rattle.step_parts.specs.superblock.Points.{plan_block_of};
ghost use Rattle.errand_steps.specs.Errands.{IsErrand};
ghost use Rattle.errand_steps.specs.declared.point.Point.TheVariants as point;
ghost use Rattle.live_heap.specs.declared.pass.Pass.{Pass};
ghost use Rattle.live_heap.specs.Going.{HasFound, HasGone, HasWalked, IsGoing, IsWalking, LinksNone, Rejoins};
ghost use Rattle.live_heap.specs.Passes.{IsOf, seen};
ghost use Rattle.live_heap.specs.Shelves.{PutsByRule};
ghost use Rattle.live_heap.specs.Sights.{IsSightOf};

use crate::block::{Block, Tokens};
use crate::heap::Heap;
use crate::pass::Pass;
use crate::plays::Doing;
use crate::shelves::ShelfRule;
use crate::view::View;
use atomic_region::Seat;
use errand_steps::continuation::Continuation;
use errand_steps::errand::{Errand, plan};
use errand_steps::reply::Progress;
use errand_steps::told::{Ending, Stepped, ended};
use std::marker::Brand;
use step_parts::superblock::point::BlockPoint;
use word_table::action::{Action, Found};

impl<R: ShelfRule> Heap<R> {
    /// Makes the step of a point of a superblock by its action, in the errand that stands there with this one's
    /// counts.
    #[inline(always)]
    fn step_at<E: Doing>(
        &self,
        seat: &mut Seat<View>,
        _errand: &Errand,
        action: Action,
        _at: &BlockPoint,
        _goes: &Continuation,
    ) -> Found
        requires table { seat.old.region ≡ self.now.region }
        requires named { E.errand ≡ record _errand.now { point = point.Block _at.now _goes.now } }
        requires planned { action ≡ plan_block_of _at.now }
        requires rule { IsErrand E.errand }
        requires sight { IsSightOf self.now.layout seat.old.me.0 E.errand }
        requires links_none { LinksNone _at.now }
        ensures seat { (seat.new.region ≡ seat.old.region) × (seat.new.me.1 ≡ seat.old.me.1) }
        ensures step { HasFound E.errand result seat.old.me.0 seat.new.me.0 }
    {
        self.act::<E>(seat, _errand, action)
    }

    /// Makes the step of a point of a superblock to which a call has come. The errand stands still.
    #[inline(always)]
    pub(crate) fn walk(
        &self,
        pass: &mut Pass,
        action: Action,
        at: &BlockPoint,
        goes: &Continuation,
        _tries: u32,
    ) -> Found
        ghost start: { Pass }
        requires planned { action ≡ plan_block_of at.now }
        requires walks { IsWalking self.now start _tries at.now goes.now pass.old }
        ensures { HasWalked self.now start _tries at.now goes.now result pass.new }
    {
        self.step_at::<Brand>(&mut pass.seat, &pass.errand, action, at, goes)
    }

    /// Goes on from a step that found this, by the errand, which stands at its point.
    pub(crate) fn rejoin(&self, pass: &mut Pass, found: Found, tries: u32) -> Option<Ending<Block>>
        ghost start: { Pass }
        requires tries { 0 < tries }
        requires joins { Rejoins self.now start tries found pass.old }
        ensures { HasGone self.now start tries result pass.new }
    {
        let action = plan(&pass.errand);
        match pass.errand.go_on(action, found) {
            Progress::Idle => unreachable!(),
            Progress::More => self.drive(pass, tries, tries),
            Progress::Lost => self.drive(pass, tries, tries - 1),
            Progress::Cleared => self.drive(pass, tries, tries - 1),
            Progress::Done(reply) => Some(ended::<Tokens>(reply, None)),
        }
    }

    /// Makes steps to the end of the call that is under way, or until none of the tries is left.
    pub(crate) fn drive(
        &self,
        pass: &mut Pass,
        _tries: u32,
        tries_left: u32,
    ) -> Option<Ending<Block>>
        ghost start: { Pass }
        requires of { IsOf self.now pass.old }
        requires going { IsGoing self.now start _tries tries_left pass.old }
        requires puts { PutsByRule R.allows (seen pass.old) pass.old.errand }
        ensures { HasGone self.now start _tries result pass.new }
    {
        let mut left = tries_left;
        while left > 0 {
            match self.step(pass) {
                Stepped::Idle => unreachable!(),
                Stepped::More => {}
                Stepped::Lost => left -= 1,
                Stepped::Cleared => left -= 1,
                Stepped::Done(ending) => return Some(ending),
            }
        }
        None
    }
}
