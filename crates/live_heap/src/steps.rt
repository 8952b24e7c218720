//! One atomic step of a pass.

ghost use Rattle.std.specs.Prelude.{◌≡◌};
ghost use Rattle.word_table.specs.Actions.{name_of};
ghost use Rattle.word_table.specs.Table.{Exists};
ghost use Rattle.errand_steps.specs.declared.told.Stepped.{Stepped};
ghost use Rattle.errand_steps.specs.Begins.{IsIdle, IsBusy};
ghost use Rattle.errand_steps.specs.Errands.{plan_of};
ghost use Rattle.live_heap.specs.Answers.{HasStepped};
ghost use Rattle.live_heap.specs.Going.{HasFound};
ghost use Rattle.live_heap.specs.Passes.{IsOf, seen};
ghost use Rattle.live_heap.specs.Pieces.{IsReady};
ghost use Rattle.live_heap.specs.Shelves.{AlwaysByRule, PutsByRule};
ghost use Rattle.live_heap.specs.Sights.{IsSightOf};

use crate::block::{Block, Tokens};
use crate::heap::Heap;
use crate::pass::Pass;
use crate::plays::{Doing, Finds, Stores};
use crate::shelves::ShelfRule;
use crate::view::View;
use atomic_region::Seat;
use errand_steps::errand::{Errand, plan};
use errand_steps::told::{Stepped, told};
use std::marker::Brand;
use word_table::action::{Action, Found};

impl<R: ShelfRule> Heap<R> {
    /// Makes one step of the pass, and says what it came to; none where the pass is in no call. Where it puts a block on a
    /// shelf, the block's words may lie there (`puts`); a begin and a step leave it so.
    pub fn step(&self, pass: &mut Pass) -> Stepped<Block>
        requires of { IsOf self.now pass.old }
        requires puts { PutsByRule R.allows (seen pass.old) pass.old.errand }
        ensures of { IsOf self.now pass.new }
        ensures puts { PutsByRule R.allows (seen pass.new) pass.new.errand }
        ensures by_rule { IsBusy pass.old.errand → AlwaysByRule R.allows (seen pass.new) }
        ensures caller { pass.new.errand.caller ≡ pass.old.errand.caller }
        ensures idle { IsIdle pass.old.errand → (result ≡ Stepped.Idle) × (pass.new ≡ pass.old) }
        ensures busy { IsBusy pass.old.errand → HasStepped pass.old pass.new result }
    {
        if pass.errand.idle() {
            return Stepped::Idle;
        }
        self.make_ready(&mut pass.seat, &pass.errand);
        let offer = pass.errand.offered();
        let action = plan(&pass.errand);
        let found = self.act::<Brand>(&mut pass.seat, &pass.errand, action);
        let progress = pass.errand.go_on(action, found);
        told::<Tokens>(progress, offer)
    }

    /// Makes the action of the errand that `E` names for the proof, and answers what it found. A store
    /// finds nothing that its errand would need.
    #[inline(always)]
    pub(crate) fn act<E: Doing>(
        &self,
        seat: &mut Seat<View>,
        _errand: &Errand,
        action: Action,
    ) -> Found
        requires table { seat.old.region ≡ self.now.region }
        requires busy { IsBusy E.errand }
        requires planned { action ≡ plan_of E.errand }
        requires there { Exists self.now.layout (name_of action) }
        requires sight { IsSightOf self.now.layout seat.old.me.0 E.errand }
        requires ready { IsReady self.now.layout E.errand.point seat.old.me.0 }
        requires puts { PutsByRule R.allows seat.old.me.0.seen E.errand }
        ensures seat { (seat.new.region ≡ seat.old.region) × (seat.new.me.1 ≡ seat.old.me.1) }
        ensures step { HasFound E.errand result seat.old.me.0 seat.new.me.0 }
        ensures by_rule { AlwaysByRule R.allows seat.new.me.0.seen }
    {
        let shared = &self.table.shared;
        let start = self.table.start();
        match action {
            Action::Load(name) => {
                let value = shared.load::<Finds<E, R>>(seat, start, self.index(name));
                Found { value, won: true }
            }
            Action::Store(name, new) => {
                shared.store::<Stores<E, R>>(seat, start, self.index(name), new);
                Found {
                    value: new,
                    won: true,
                }
            }
            Action::Cas(name, expected, new) => {
                let value = shared.compare_exchange::<Finds<E, R>>(
                    seat,
                    start,
                    self.index(name),
                    expected,
                    new,
                );
                Found {
                    value,
                    won: value == expected,
                }
            }
            Action::Swap(name, new) => {
                let value = shared.swap::<Finds<E, R>>(seat, start, self.index(name), new);
                Found { value, won: true }
            }
            Action::And(name, mask) => {
                let value = shared.fetch_and::<Finds<E, R>>(seat, start, self.index(name), mask);
                Found { value, won: true }
            }
        }
    }
}
