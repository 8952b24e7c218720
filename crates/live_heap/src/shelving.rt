//! Steps on a shelf's word that a put and a take make without their errand, which stands for them in the proof alone.

ghost use Rattle.std.specs.Prelude.{◌≡◌};
ghost use Rattle.step_parts.specs.large.Points.{plan_large_of};
ghost use Rattle.errand_steps.specs.Errands.{IsErrand};
ghost use Rattle.live_heap.specs.Going.{HasFound, OpensNone, at_shelf};
ghost use Rattle.live_heap.specs.Shelves.{AlwaysByRule, PutsByRule};
ghost use Rattle.live_heap.specs.Sights.{IsSightOf};

use crate::heap::Heap;
use crate::plays::Doing;
use crate::shelves::ShelfRule;
use crate::view::View;
use atomic_region::Seat;
use errand_steps::errand::Errand;
use step_parts::large::point::LargePoint;
use word_table::action::{Action, Found};

impl<R: ShelfRule> Heap<R> {
    /// Makes the step of a point of a shelf by its action, in the errand that stands there with this one's counts.
    #[inline(always)]
    pub(crate) fn step_on_shelf<E: Doing>(
        &self,
        seat: &mut Seat<View>,
        _errand: &Errand,
        action: Action,
        _at: &LargePoint,
    ) -> Found
        requires table { seat.old.region ≡ self.now.region }
        requires named { E.errand ≡ at_shelf _errand.now _at.now }
        requires planned { action ≡ plan_large_of _at.now }
        requires rule { IsErrand E.errand }
        requires sight { IsSightOf self.now.layout seat.old.me.0 E.errand }
        requires opens_none { OpensNone self.now.layout _at.now }
        requires puts { PutsByRule R.allows seat.old.me.0.seen E.errand }
        ensures seat { (seat.new.region ≡ seat.old.region) × (seat.new.me.1 ≡ seat.old.me.1) }
        ensures step { HasFound E.errand result seat.old.me.0 seat.new.me.0 }
        ensures by_rule { AlwaysByRule R.allows seat.new.me.0.seen }
    {
        self.act::<E>(seat, _errand, action)
    }
}
