//! Laws of roomy traces, on functions that do nothing.

ghost use Rattle.std.specs.Prelude.{ℕ, ◌≡◌, List, length, map, ◌≤◌, ◌≢◌};
ghost use Rattle.pool_model.specs.declared.event.Event.{Event};
ghost use Rattle.pool_model.specs.Legal.{IsLegal};
ghost use Rattle.pool_model.specs.Pool.{live_words, pool_of};
ghost use Rattle.trace_text.specs.Traces.{IsTrace};
ghost use Rattle.trace_text.specs.declared.trace.Trace.{Trace};
ghost use Rattle.lane_outcomes.specs.declared.outcome.Outcome.{Outcome};
ghost use Rattle.lane_outcomes.specs.Fits.{OutcomesFit};
ghost use Rattle.lane_outcomes.specs.LaneCounts.{as_one, as_words};
ghost use Rattle.lane_outcomes.specs.Report.{report_of};
ghost use Rattle.roomy_traces.specs.Roomy.{IsRoomy};
ghost use Rattle.roomy_traces.specs.Serial.{left_by, serial_outcomes, serial_report_of, without_place};
ghost use Rattle.roomy_traces.specs.Through.{IsRoomyThrough};
ghost use Rattle.workloads.specs.declared.kind.Kind.{Kind};
ghost use Rattle.workloads.specs.declared.kind.Kind.TheVariants.{Pipeline};
ghost use Rattle.workloads.specs.declared.making.TheConstants.{MAX_SIZE};
ghost use Rattle.workloads.specs.Made.{made};

/// Whatever legal history the lanes of a roomy trace ran in: their outcomes are those of each lane on
/// its own, every allocation and every resize being given, but for the places of the blocks.
pub fn roomy_outcomes_are_serial()
    ensures { (trace : Trace) (history : List Event) (lost : ℕ) (outcomes : List (List Outcome))
        → IsTrace trace → IsRoomy trace → IsLegal trace.heap history
        → OutcomesFit trace.heap history lost trace.lanes outcomes
        → map (map without_place) outcomes ≡ map serial_outcomes trace.lanes }
{}

/// What is live behind the history is what the lanes hold at their ends: so many blocks, and so many words.
pub fn roomy_lanes_leave_what_they_hold()
    ensures { (trace : Trace) (history : List Event) (lost : ℕ) (outcomes : List (List Outcome))
        → IsTrace trace → IsRoomy trace → IsLegal trace.heap history
        → OutcomesFit trace.heap history lost trace.lanes outcomes
        → (length (pool_of history) ≡ left_by as_one trace.lanes) × (live_words (pool_of history) ≡ left_by as_words trace.lanes) }
{}

/// So the trace has one report, which is computed lane by lane.
pub fn roomy_traces_have_one_report()
    ensures { (trace : Trace) (history : List Event) (lost : ℕ) (outcomes : List (List Outcome))
        → IsTrace trace → IsRoomy trace → IsLegal trace.heap history
        → OutcomesFit trace.heap history lost trace.lanes outcomes
        → report_of trace outcomes history ≡ serial_report_of trace }
{}

/// Each generated trace but that of the pipeline is roomy: so `make` has one summary of it.
pub fn generated_traces_are_roomy()
    ensures { (kind : Kind) (size start : ℕ) → size ≤ MAX_SIZE → kind ≢ Pipeline → IsRoomy (made kind size start) }
{}

/// It is roomy through caches too that keep at most four blocks of each class: so `cache` has one text of it.
pub fn generated_traces_are_roomy_through_caches()
    ensures { (kind : Kind) (size start depth : ℕ) → size ≤ MAX_SIZE → kind ≢ Pipeline → depth ≤ 4 → IsRoomyThrough depth (made kind size start) }
{}
