//! A caller's errand: all that it keeps between two steps.

ghost use Rattle.std.specs.Prelude.{ℕ, ◌≡◌, ◌<◌, ◌≤◌, Some};
ghost use Rattle.heap_geometry.specs.Geometry.{IsChecked};
ghost use Rattle.heap_geometry.specs.Need.{need_of};
ghost use Rattle.pool_model.specs.Histories.{caller_of};
ghost use Rattle.pool_model.specs.declared.event.Event.{Event};
ghost use Rattle.pool_model.specs.declared.event.Event.TheVariants.{Alloc};
ghost use Rattle.word_table.specs.Actions.{name_of};
ghost use Rattle.word_table.specs.Table.{Exists};
ghost use Rattle.errand_steps.specs.Begins.{IsBusy, IsHeapBlock};
ghost use Rattle.errand_steps.specs.Errands.{IsErrand, IsListable, counts_won, raised, open_errand, plan_of, settle_of, answer_of, led_to, led_by, ended_by, is_full, is_spent, going_on};
ghost use Rattle.errand_steps.specs.Events.{event_of};
ghost use Rattle.errand_steps.specs.Offers.{offered_at};
ghost use Rattle.errand_steps.specs.Openers.{AreOpened};
ghost use Rattle.errand_steps.specs.declared.next.Next.TheVariants.{Turn, Retire};
ghost use Rattle.errand_steps.specs.declared.point.Point.TheVariants.{Block};
ghost use Rattle.errand_steps.specs.Nexts.{resumed};
ghost use Rattle.errand_steps.specs.Points.{is_idle};

use crate::continuation::Continuation;
use crate::count::{counts_cleared, counts_lost, counts_won, raised};
use crate::enter::large::ending_on_word;
use crate::enter::{plan_point, settle_point};
use crate::next::Next;
use crate::point::{Pieces, Point};
use crate::reply::{Offer, Progress, Reply};
use heap_geometry::geometry::Geometry;
use pool_model::event::Event;
use std::marker::Model;
use step_parts::hazard::held::Held;
use step_parts::hazard::point::DescPoint;
use step_parts::hazard::retired::Retired;
use step_parts::large::point::LargePoint;
use step_parts::partial::point::PartialPoint;
use step_parts::superblock::point::BlockPoint;
use word_table::action::{Action, Found};
use word_table::seat::Seat;

/// One caller's state between two steps: who it is, where it stands, the descriptors that it retired, and
/// its counts.
#[derive(Drop)]
pub struct Errand {
    /// The caller of the heap. It is given its class where a call begins.
    pub(crate) seat: Seat,
    pub(crate) point: Point,
    retired: Retired,
    pub(crate) turns: u64,
    won: u64,
    lost: u64,
    cleared: u64,
}

impl Model for Errand {
    ghost use Rattle.errand_steps.specs.Errands.{ErrandFields, IsErrand};

    ghost Value = { ErrandFields };

    ghost view = { λ e. record { caller = e.seat.caller; geometry = e.seat.geometry; point = e.point; retired = e.retired; turns = e.turns; won = e.won; lost = e.lost; cleared = e.cleared } };

    ghost invariant = { λ e. IsErrand (record { caller = e.seat.caller; geometry = e.seat.geometry; point = e.point; retired = e.retired; turns = e.turns; won = e.won; lost = e.lost; cleared = e.cleared }) };
}

impl Errand {
    /// The errand of a caller before its first call.
    pub fn open(caller: u32, geometry: Geometry) -> Errand
        requires checked { IsChecked geometry }
        requires caller { caller < geometry.callers }
        ensures { result ≡ open_errand caller geometry }
    {
        Errand {
            seat: Seat::new(geometry, caller as u8, 0),
            point: Point::Idle,
            retired: Retired::new(),
            turns: 0,
            won: 0,
            lost: 0,
            cleared: 0,
        }
    }

    /// The caller's number. Everything that the errand remembers exists in its heap.
    pub fn caller(&self) -> u32
        ensures rule { IsErrand self.now }
        ensures value { result ≡ self.now.caller }
        ensures within { result < self.now.geometry.callers }
    {
        u32::from(self.seat.caller())
    }

    /// Whether the caller is in no call.
    pub fn idle(&self) -> bool
        ensures { result ≡ is_idle self.now.point }
    {
        matches!(self.point, Point::Idle)
    }

    /// The block of a put that is under way, which its caller has back where the shelf is full; `None`
    /// in any other call, and in none.
    pub fn offered(&self) -> Option<Offer>
        ensures { result ≡ offered_at self.now.point }
    {
        match self.point {
            Point::Large {
                at: LargePoint::PutBlock { place, need, .. },
                ..
            } => Some(Offer { place, need }),
            _ => None,
        }
    }

    /// The pieces that the caller's next step is the first to use: the frame whose blocks it begins to link,
    /// or the units of a run that it hands out.
    pub fn opens(&self) -> Option<Pieces>
        ensures { AreOpened self.now.geometry self.now.point result }
    {
        match self.point {
            Point::Block {
                at: BlockPoint::LinkBlock { site, index: 0 },
                ..
            } => Some(Pieces {
                first: u32::from(site.frame),
                count: 1,
            }),
            Point::Large {
                at: LargePoint::StoreRunPrefix { run, .. },
                ..
            } => Some(Pieces {
                first: self.seat.geometry().frames + u32::from(run.first()),
                count: u32::from(run.units()),
            }),
            _ => None,
        }
    }

    /// How many turns the caller has begun, at most the turn limit.
    pub fn turns(&self) -> u64
        ensures value { result ≡ self.now.turns }
        ensures within { result ≤ self.now.geometry.turn_limit }
    {
        self.turns
    }

    /// How many exchanges the caller has won, at most 2^64 - 1.
    pub fn won(&self) -> u64
        ensures { result ≡ self.now.won }
    {
        self.won
    }

    /// How many it has lost, at most 2^64 - 1.
    pub fn lost(&self) -> u64
        ensures { result ≡ self.now.lost }
    {
        self.lost
    }

    /// How many empty superblocks its allocations took for partial ones, at most 2^64 - 1.
    pub fn cleared(&self) -> u64
        ensures { result ≡ self.now.cleared }
    {
        self.cleared
    }

    /// Stands at a point of a superblock, in a call that was made so far without it.
    #[inline(always)]
    pub fn stand_at(&mut self, at: BlockPoint, continuation: Continuation)
        requires { IsErrand (record self.old { point = Block at continuation }) }
        ensures { self.new ≡ record self.old { point = Block at continuation } }
    {
        self.point = Point::Block { at, continuation };
    }

    /// Counts an exchange that was won, where it counts.
    #[inline(always)]
    pub fn count(&mut self, action: Action, found: Found)
        ensures { self.new ≡ record self.old { won = raised (counts_won action found) self.old.won } }
    {
        self.won = raised(counts_won(action, found), self.won);
    }

    /// Goes on to the errand that follows what its action found, and answers what the step came to.
    /// The action is the one that was planned.
    pub fn go_on(&mut self, action: Action, found: Found) -> Progress
        requires busy { IsBusy self.old }
        requires planned { action ≡ plan_of self.old }
        ensures errand { self.new ≡ settle_of self.old found }
        ensures answer { result ≡ answer_of self.old found }
    {
        match ending_on_word(&self.point, found) {
            Some(reply) => {
                self.point = Point::Idle;
                Progress::Done(reply)
            }
            None => self.move_on(action, found),
        }
    }

    /// The same, from any point. What the step counts is counted first, wherever it leads.
    fn move_on(&mut self, action: Action, found: Found) -> Progress
        requires busy { IsBusy self.old }
        requires planned { action ≡ plan_of self.old }
        ensures errand { self.new ≡ settle_of self.old found }
        ensures answer { result ≡ answer_of self.old found }
    {
        let lost = counts_lost(&self.point, action, found);
        let cleared = counts_cleared(&self.point, found);
        self.won = raised(counts_won(action, found), self.won);
        self.lost = raised(lost, self.lost);
        self.cleared = raised(cleared, self.cleared);
        match settle_point(&mut self.point, found) {
            None => going_on(lost, cleared),
            Some(next) => match self.lead_on(next) {
                Some(reply) => Progress::Done(reply),
                None => going_on(lost, cleared),
            },
        }
    }

    /// Goes on to what follows where a part is left, and answers the reply with which the call ends, where
    /// it does.
    #[inline(always)]
    fn lead_on(&mut self, next: Next) -> Option<Reply>
        requires listable { IsListable self.old.retired next }
        requires rule { IsErrand (led_by self.old next) }
        ensures errand { self.new ≡ led_by self.old next }
        ensures reply { result ≡ ended_by (led_to self.old next) }
    {
        match next {
            Next::At { point } => {
                self.point = point;
                None
            }
            Next::End { reply } => {
                self.point = Point::Idle;
                Some(reply)
            }
            Next::Turn { seat, need } => self.turn(seat, need),
            Next::Retire {
                seat,
                desc,
                continuation,
            } => self.retire(seat, desc, continuation),
            Next::Pick {
                seat,
                held,
                continuation,
            } => {
                if let Some(desc) = self.retired.pick(&held) {
                    self.point = Point::Desc {
                        at: DescPoint::LoadHeadToPush { seat, desc },
                        continuation,
                    };
                }
                None
            }
            Next::Unlist {
                seat,
                desc,
                continuation,
            } => {
                self.point = Point::Idle;
                self.retired.remove(desc);
                self.resume(seat, continuation)
            }
        }
    }

    /// Retires a descriptor. Where that makes more than the heap has callers, the hazard words are read;
    /// else the call resumes.
    fn retire(&mut self, seat: Seat, desc: u16, continuation: Continuation) -> Option<Reply>
        requires listable { IsListable self.old.retired (Retire seat desc continuation) }
        requires rule { IsErrand (led_by self.old (Retire seat desc continuation)) }
        ensures errand { self.new ≡ led_by self.old (Retire seat desc continuation) }
        ensures reply { result ≡ ended_by (led_to self.old (Retire seat desc continuation)) }
    {
        if self.is_full() {
            self.point = Point::Desc {
                at: DescPoint::ReadHazard {
                    seat,
                    held: Held::nothing(),
                    at: 0,
                },
                continuation,
            };
            self.retired.add(desc);
            None
        } else {
            self.point = Point::Idle;
            self.retired.add(desc);
            self.resume(seat, continuation)
        }
    }

    /// Resumes the call after a retirement.
    fn resume(&mut self, seat: Seat, continuation: Continuation) -> Option<Reply>
        requires rule { IsErrand (led_by self.old (resumed seat continuation)) }
        ensures errand { self.new ≡ led_by self.old (resumed seat continuation) }
        ensures reply { result ≡ ended_by (led_to self.old (resumed seat continuation)) }
    {
        match continuation {
            Continuation::Turn { need } => self.turn(seat, need),
            Continuation::Look { need } => {
                self.point = Point::Partial {
                    at: PartialPoint::LoadSlot { seat },
                    continuation: Continuation::Alloc { need },
                };
                None
            }
            Continuation::Refuse => {
                self.point = Point::Idle;
                Some(Reply::Refused)
            }
            _ => {
                self.point = Point::Idle;
                Some(Reply::Freed)
            }
        }
    }

    /// A turn begins where the caller has one left; where it has none the call ends.
    fn turn(&mut self, seat: Seat, need: u32) -> Option<Reply>
        requires rule { IsErrand (led_by self.old (Turn seat need)) }
        ensures errand { self.new ≡ led_by self.old (Turn seat need) }
        ensures reply { result ≡ ended_by (led_to self.old (Turn seat need)) }
    {
        if self.is_spent() {
            self.point = Point::Idle;
            Some(Reply::Spent)
        } else {
            self.point = Point::Block {
                at: BlockPoint::LoadActive { seat },
                continuation: Continuation::Alloc { need },
            };
            self.turns += 1;
            None
        }
    }

    /// Whether one more retired descriptor makes more than the heap has callers.
    fn is_full(&self) -> bool
        ensures { result ≡ is_full self.now }
    {
        self.seat.geometry().callers <= self.retired.len()
    }

    /// Whether the caller has no turn left.
    pub fn is_spent(&self) -> bool
        ensures { result ≡ is_spent self.now }
    {
        self.turns == self.seat.geometry().turn_limit
    }
}

/// The action of a caller's next step.
pub fn plan(errand: &Errand) -> Action
    requires { IsBusy errand.now }
    ensures value { result ≡ plan_of errand.now }
    ensures exists { Exists errand.now.geometry (name_of result) }
{
    plan_point(&errand.point)
}

/// What a step that goes on answers.
fn going_on(lost: bool, cleared: bool) -> Progress
    ensures { result ≡ going_on lost cleared }
{
    if lost {
        Progress::Lost
    } else if cleared {
        Progress::Cleared
    } else {
        Progress::More
    }
}

/// The event that the step adds to the history; `None` exactly where it adds none. It is the
/// caller's own, and a block that it gives is one of the heap's.
#[tactic(auto, using(crate::proofs::EventLemmas::event_given, crate::proofs::EventLemmas::event_own))]
pub fn event(errand: &Errand, found: Found) -> Option<Event>
    requires { IsBusy errand.now }
    ensures value { result ≡ event_of errand.now.caller errand.now.point found }
    ensures own { (e : Event) → result ≡ Some e → caller_of e ≡ errand.now.caller }
    ensures given { (caller need place : ℕ) → result ≡ Some (Alloc caller need place)
        → IsHeapBlock errand.now.geometry place (need_of need) }
{
    crate::event::event_of(errand.caller(), &errand.point, found)
}
