//! Laws of the machine: theorems about the definitions, on functions that do nothing; and a machine
//! to begin with whose first superblock is in use.

ghost use Rattle.std.specs.Prelude.{ℕ, List, ◌≡◌, ◌≢◌, ◌<◌, ◌≤◌, ◌+◌, ◌-◌, ◌*◌, ◌^◌, ◌++◌, ◌↔◌, IfOk, length, count_by};
ghost use Rattle.heap_geometry.specs.declared.geometry.Geometry.{Geometry};
ghost use Rattle.heap_geometry.specs.Geometry.{IsChecked};
ghost use Rattle.heap_geometry.specs.declared.limits.TheConstants.{CLASSES};
ghost use Rattle.heap_geometry.specs.declared.need.Need.{Need};
ghost use Rattle.word_table.specs.Actions.{name_of};
ghost use Rattle.word_table.specs.Table.{Exists};
ghost use Rattle.pool_model.specs.Calls.{Ended, EventsOf};
ghost use Rattle.pool_model.specs.declared.event.Event.{Event};
ghost use Rattle.pool_model.specs.Histories.{own};
ghost use Rattle.pool_model.specs.Legal.{IsLegalWithoutCounts};
ghost use Rattle.errand_steps.specs.declared.point.Point.{Point};
ghost use Rattle.errand_steps.specs.declared.reply.Progress.{Progress};
ghost use Rattle.errand_steps.specs.Begins.{IsBusy};
ghost use Rattle.errand_steps.specs.Calls.{Call};
ghost use Rattle.errand_steps.specs.Errands.{plan_of};
ghost use Rattle.sound_laws.specs.events.UnderWay.{IsUnderWay};
ghost use Rattle.sound_laws.specs.bounds.Contention.{dirty_pairs, lost_of, won_of};
ghost use Rattle.sound_laws.specs.bounds.Installs.{installs_by, installs_against, errand_offers};
ghost use Rattle.sound_state.specs.Runs.{Move, Moved};
ghost use Rattle.sound_state.specs.Sound.{IsSound};
ghost use Rattle.sound_state.specs.Sums.{callers_sum};
ghost use Rattle.sound_state.specs.Turns.{gives_small, refuses_small, is_small_alloc, errand_discards, turn_unanswered};
ghost use Rattle.step_machine.specs.Cores.{CoreFields, IsCore, IsLonger, IsReached, OwnsAfter, errand_at, made_with, state_of};
ghost use Rattle.step_machine.specs.Keeping.{AllSpare, LeavesPlace, LeavesAtEnd};
ghost use Rattle.errand_steps.specs.Openings.{installed};
ghost use Rattle.step_machine.specs.Openings.{IsOpened};
ghost use Rattle.errand_steps.specs.Steps.{State, Step, Run, IsSame};
ghost use Rattle.step_machine.specs.Moments.{HasSeenMore, IsMoment, IsServed};
ghost use Rattle.step_machine.specs.Steps.{stepped, IsStepped};

use crate::machine::Core;
use heap_geometry::geometry::Geometry;
use std::alloc::{AllocError, Global};

/// A machine that has made no step, where frame 0 holds a superblock of the class, of descriptor 0:
/// it is the active one of heap 0, and all its blocks are free.
pub fn open_installed(alloc: Global, geometry: Geometry, class: u8) -> Result<Core, AllocError>
    requires checked { IsChecked geometry }
    requires class { class < CLASSES }
    ensures { IfOk result (IsOpened geometry (installed geometry class)) }
{
    Core::open_with(alloc, geometry, Some(class))
}

/// What the type keeps of every machine, from its opening on and whatever its callers did. Its state is
/// sound, and moves of its callers have reached it, with as many steps as it counts. The list is what
/// the steps of such a run won, and these bounds hold of it: the lost exchanges and the dirty pairs are
/// at most its length times the other callers; a caller installs at most as often as it is given a small
/// block; and beside the turns that were answered it takes at most one for each install of another.
/// Without the list: the callers lost no more exchanges than they won, times the other callers, as long
/// as no count of won ones stands at its end; and a caller took no more turns than small blocks were
/// given to any caller and small needs were refused to itself, and the turn that has no answer yet; nor
/// more than were given or refused to itself, and exchanges that it lost, and that turn; nor fewer than
/// were given or refused to itself, and that turn.
pub fn machines_are_sound()
    ensures sound { (c : CoreFields) → IsCore c → IsSound c.geometry (state_of c) }
    ensures reached { (c : CoreFields) → IsCore c → IsReached c.geometry (state_of c) c.steps }
    ensures losses { (c : CoreFields) (run : IsReached c.geometry (state_of c) c.steps)
        → callers_sum c.geometry lost_of (errand_at c.errands) + dirty_pairs c.geometry run.wins
        ≤ (c.geometry.callers - 1) * length run.wins.list }
    ensures installs { (c : CoreFields) (run : IsReached c.geometry (state_of c) c.steps) (caller : ℕ) → caller < c.geometry.callers
        → count_by (installs_by caller) run.wins.list + errand_offers (errand_at c.errands caller)
        ≤ count_by (gives_small caller) c.events }
    ensures met { (c : CoreFields) (run : IsReached c.geometry (state_of c) c.steps) (caller : ℕ) → caller < c.geometry.callers
        → (errand_at c.errands caller).turns
        ≤ count_by (gives_small caller) c.events + count_by (refuses_small caller) c.events
        + count_by (installs_against caller) run.wins.list + turn_unanswered (errand_at c.errands caller) }
    ensures contended { (c : CoreFields) → IsCore c
        → ((caller : ℕ) → caller < c.geometry.callers → (errand_at c.errands caller).won < 2 ^ 64 - 1)
        → callers_sum c.geometry lost_of (errand_at c.errands)
        ≤ (c.geometry.callers - 1) * callers_sum c.geometry won_of (errand_at c.errands) }
    ensures turns { (c : CoreFields) (caller : ℕ) → IsCore c → caller < c.geometry.callers
        → (errand_at c.errands caller).turns
        ≤ count_by is_small_alloc c.events + count_by (refuses_small caller) c.events
        + turn_unanswered (errand_at c.errands caller) }
    ensures lost { (c : CoreFields) (caller : ℕ) → IsCore c → caller < c.geometry.callers
        → (errand_at c.errands caller).turns + errand_discards (errand_at c.errands caller)
        ≤ count_by (gives_small caller) c.events + count_by (refuses_small caller) c.events
        + (errand_at c.errands caller).lost + turn_unanswered (errand_at c.errands caller) }
    ensures answers { (c : CoreFields) (caller : ℕ) → IsCore c → caller < c.geometry.callers
        → count_by (gives_small caller) c.events + count_by (refuses_small caller) c.events
        + turn_unanswered (errand_at c.errands caller)
        ≤ (errand_at c.errands caller).turns }
{}

/// A run goes on with each call that begins and each step: it has that move behind it, and the list has
/// one more where the step wins.
pub fn runs_go_on()
    ensures { (g : Geometry) (s after : State) (made : ℕ) (run : IsReached g s made) (move : Move) → Moved g s move after
        → (next : IsReached g after (made_with made move)) × IsLonger g s after made (made_with made move) run move next }
{}

/// A step is determined by the state before it.
pub fn steps_are_determined()
    ensures { (s a b : State) (caller : ℕ) → Step s caller a → Step s caller b → IsSame a b }
{}

/// What a step makes of the lists of the machine is a step of the state.
pub fn lists_make_steps()
    ensures { (c : CoreFields) (caller : ℕ) → IsCore c → caller < c.geometry.callers
        → IsBusy (errand_at c.errands caller)
        → Exists c.geometry (name_of (plan_of (errand_at c.errands caller)))
        → Step (state_of c) caller (state_of (stepped c caller)) }
{}

/// A run of callers and then of others is two runs, one after the other.
pub fn runs_follow_one_another()
    ensures { (s t : State) (first rest : List ℕ) (n : ℕ)
        → Run s (first ++ rest) n t
        ↔ ((m : State) × (a : ℕ) × (b : ℕ) × Run s first a m × Run m rest b t × (n ≡ a + b)) }
{}

/// A step of a machine as its caller sees it: it is one step of a state that moves of the callers had
/// reached, and so of a sound one. The other callers have their errands, and see more events at most, none
/// of them their own. And what is so of each caller between two steps: its errand is its own, the events
/// are legal, and they bound its turns.
pub fn steps_are_moments()
    ensures moment { (c after : CoreFields) (caller : ℕ) (answer : Progress) → IsCore c → caller < c.geometry.callers
        → IsStepped c caller answer after
        → IsMoment (errand_at c.errands caller) (errand_at after.errands caller) c.events after.events answer }
    ensures others { (c after : CoreFields) (caller other : ℕ) (answer : Progress) → IsStepped c caller answer after → other ≢ caller
        → (errand_at after.errands other ≡ errand_at c.errands other) × HasSeenMore other c.events after.events }
    ensures served { (c : CoreFields) (caller : ℕ) → IsCore c → caller < c.geometry.callers
        → IsServed c.geometry caller (errand_at c.errands caller) c.events }
{}

/// A caller's block stays its own through a legal history, of which its own events give no block away
/// that lies there: another caller never takes it. The events of a call, so far or at its end, give away
/// no block but the one that a free or a put is about.
pub fn owners_keep_their_blocks()
    ensures owns { (g : Geometry) (before rest : List Event) (caller place : ℕ) (need : Need) → IsLegalWithoutCounts g (before ++ rest)
        → AllSpare place (own caller rest) → OwnsAfter before caller place need → OwnsAfter (before ++ rest) caller place need }
    ensures so_far { (caller place : ℕ) (call : Call) (point : Point) (events : List Event) → LeavesPlace call place
        → IsUnderWay caller call point events → AllSpare place events }
    ensures ended { (caller place : ℕ) (end : Ended) (events : List Event) → LeavesAtEnd end place → EventsOf caller end events
        → AllSpare place events }
{}
