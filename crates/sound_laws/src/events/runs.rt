//! Laws of calls as a whole: which events a caller adds from the begin of a call to its end.

ghost use Rattle.std.specs.Prelude.{ℕ, ◌≡◌, ◌<◌, List};
ghost use Rattle.heap_geometry.specs.declared.geometry.Geometry.{Geometry};
ghost use Rattle.pool_model.specs.declared.event.Event.{Event};
ghost use Rattle.pool_model.specs.Histories.{own};
ghost use Rattle.errand_steps.specs.declared.reply.Reply.{Reply};
ghost use Rattle.errand_steps.specs.declared.reply.Progress.TheVariants.{Done};
ghost use Rattle.errand_steps.specs.Begins.{IsIdle, IsBusy};
ghost use Rattle.errand_steps.specs.Calls.{Call};
ghost use Rattle.errand_steps.specs.Errands.{answer_of};
ghost use Rattle.errand_steps.specs.Steps.{State, Step, found_at};
ghost use Rattle.sound_laws.specs.events.Calls.{IsInCall, HasEndedCall};
ghost use Rattle.sound_state.specs.Moves.{BeginsNothing};
ghost use Rattle.sound_state.specs.Runs.{BeginsCall, Move, Moved, Reaches};
ghost use Rattle.sound_state.specs.Sound.{IsSound};

/// A caller's own events since it began a call are the call's events so far, after each move of
/// whichever caller; and at the step that ends the call they are the events of a call that ends so.
pub fn moves_add_the_events_of_a_call()
    ensures begins { (g : Geometry) (s : State) (caller : ℕ) (call : Call) (after : State)
        → IsSound g s → caller < g.callers → BeginsCall s caller call after → IsBusy (after.errand caller)
        → IsInCall caller call (own caller s.history) after }
    ensures goes_on { (g : Geometry) (s : State) (caller : ℕ) (call : Call) (before : List Event) (move : Move)
        (after : State) → IsSound g s → caller < g.callers → IsInCall caller call before s → Moved g s move after
        → IsBusy (after.errand caller) → IsInCall caller call before after }
    ensures ends { (g : Geometry) (s : State) (caller : ℕ) (call : Call) (before : List Event) (after : State)
        (reply : Reply) → IsSound g s → caller < g.callers → IsInCall caller call before s → Step s caller after
        → answer_of (s.errand caller) (found_at s caller) ≡ Done reply
        → HasEndedCall caller call before reply after }
{}

/// So it is over a whole run of moves, of any callers in any order, among which the caller begins
/// nothing more. A caller that is in no call adds no event, whatever the others do.
pub fn calls_add_their_events()
    ensures under_way { (g : Geometry) (s : State) (caller : ℕ) (call : Call) (begun : State) (moves : List Move)
        (later : State) → IsSound g s → caller < g.callers → BeginsCall s caller call begun
        → BeginsNothing caller moves → Reaches g begun moves later → IsBusy (later.errand caller)
        → IsInCall caller call (own caller s.history) later }
    ensures ended { (g : Geometry) (s : State) (caller : ℕ) (call : Call) (begun : State) (moves : List Move)
        (later after : State) (reply : Reply) → IsSound g s → caller < g.callers → BeginsCall s caller call begun
        → BeginsNothing caller moves → Reaches g begun moves later → Step later caller after
        → answer_of (later.errand caller) (found_at later caller) ≡ Done reply
        → HasEndedCall caller call (own caller s.history) reply after }
    ensures idle { (g : Geometry) (s : State) (caller : ℕ) (moves : List Move) (later : State)
        → IsSound g s → caller < g.callers → IsIdle (s.errand caller) → BeginsNothing caller moves
        → Reaches g s moves later
        → (later.errand caller ≡ s.errand caller) × (own caller later.history ≡ own caller s.history) }
{}
