//! Laws of lanes, on functions that do nothing.

ghost use Rattle.std.specs.Prelude.{ℕ, ◌≡◌, ◌<◌, ◌≤◌, [], List, None, Option, length, replicate, take};
ghost use Rattle.std.specs.List.{slice_index_or};
ghost use Rattle.heap_geometry.specs.declared.geometry.Geometry.{Geometry};
ghost use Rattle.pool_model.specs.declared.event.Event.{Event};
ghost use Rattle.errand_steps.specs.Begins.{IsIdle};
ghost use Rattle.errand_steps.specs.Calls.{Call};
ghost use Rattle.errand_steps.specs.Errands.{ErrandFields, open_errand};
ghost use Rattle.trace_text.specs.declared.limits.TheConstants.{REGISTERS};
ghost use Rattle.trace_text.specs.declared.trace.Op.{Op};
ghost use Rattle.lane_outcomes.specs.declared.outcome.Outcome.{Outcome};
ghost use Rattle.lane_outcomes.specs.declared.outcome.Outcome.TheVariants.{Spent};
ghost use Rattle.lane_outcomes.specs.declared.registers.HeldBlock.{HeldBlock};
ghost use Rattle.lane_outcomes.specs.Fits.{Fits, Walks};
ghost use Rattle.lane_outcomes.specs.Lane.{Position, start};
ghost use Rattle.lane_outcomes.specs.Standing.{setting_in};
ghost use Rattle.step_machine.specs.Moments.{HasSeenMore, IsServed};
ghost use Rattle.lane_engine.specs.Engines.{Engine};
ghost use Rattle.trace_lane.specs.Lanes.{IsLane};
ghost use Rattle.trace_lane.specs.Scripts.{Scripts};
ghost use Rattle.trace_lane.specs.States.{IsLaneOf, IsNew};
ghost use Rattle.trace_lane.specs.declared.lane.LaneState.{LaneState};
ghost use Rattle.trace_lane.specs.declared.work.Work.{Work};

use crate::lane::LaneState;
use step_machine::token::Token;

/// A new lane stands where its caller is new and nothing has happened, and it has begun no call.
pub fn new_lanes_stand<B: Token>()
    ensures { (engine : Engine B) (operations : List Op) (lane : LaneState B) → IsNew lane.caller (length operations) lane
        → engine.errand ≡ open_errand lane.caller engine.geometry → engine.events ≡ []
        → IsServed engine.geometry lane.caller engine.errand engine.events → IsLaneOf engine operations lane [] }
{}

/// A lane stands as it stood, whatever others did in the meantime.
pub fn lanes_stand_beside()
    ensures { (g : Geometry) (caller : ℕ) (before after : List Event) (e : ErrandFields) (operations : List Op)
        (registers : List (Option HeldBlock)) (results : List Outcome) (at : Option (Work HeldBlock)) (calls : List Call)
        → IsLane g caller before e operations registers results at calls → HasSeenMore caller before after
        → IsLane g caller after e operations registers results at calls }
{}

/// The caller of a lane between two operations is in no call, and the calls that it began are those of its operations
/// with their outcomes.
pub fn lanes_make_the_calls_of_their_script()
    ensures idle { (g : Geometry) (caller : ℕ) (events : List Event) (e : ErrandFields) (operations : List Op)
        (registers : List (Option HeldBlock)) (results : List Outcome) (calls : List Call)
        → IsLane g caller events e operations registers results None calls → IsIdle e }
    ensures script { (g : Geometry) (caller : ℕ) (events : List Event) (e : ErrandFields) (operations : List Op)
        (registers : List (Option HeldBlock)) (results : List Outcome) (calls : List Call)
        → IsLane g caller events e operations registers results None calls
        → Scripts (replicate REGISTERS None) operations results calls }
{}

/// The outcomes of a lane so far fit the events that are seen, however many exchanges were lost beside those of its
/// caller; so do those of a lane that has all of them, which tell each event that its caller has added. Who was told to
/// have no turn left has taken them all.
pub fn outcomes_of_lanes_fit()
    ensures so_far { (g : Geometry) (caller : ℕ) (events : List Event) (e : ErrandFields) (operations : List Op)
        (registers : List (Option HeldBlock)) (results : List Outcome) (at : Option (Work HeldBlock)) (calls : List Call) (lost : ℕ)
        → IsLane g caller events e operations registers results at calls → e.lost ≤ lost
        → (end : Position) × Walks (setting_in events caller g.turn_limit lost) start (take (length results) operations) results end }
    ensures ended { (g : Geometry) (caller : ℕ) (events : List Event) (e : ErrandFields) (operations : List Op)
        (registers : List (Option HeldBlock)) (results : List Outcome) (calls : List Call) (lost : ℕ)
        → IsLane g caller events e operations registers results None calls → length results ≡ length operations → e.lost ≤ lost
        → Fits (setting_in events caller g.turn_limit lost) operations results }
    ensures spent { (g : Geometry) (caller : ℕ) (events : List Event) (e : ErrandFields) (operations : List Op)
        (registers : List (Option HeldBlock)) (results : List Outcome) (calls : List Call) (k : ℕ)
        → IsLane g caller events e operations registers results None calls → k < length results
        → slice_index_or results k Spent ≡ Spent → e.turns ≡ g.turn_limit }
{}
