//! Laws of traces that are roomy through caches, on functions that do nothing.

ghost use Rattle.std.specs.Prelude.{ℕ, ◌+◌, ◌*◌, ◌≡◌, ◌<◌, ◌≤◌, List, [], length, map, slice_index_or, sum_by};
ghost use Rattle.heap_geometry.specs.declared.limits.TheConstants.{CLASSES};
ghost use Rattle.pool_model.specs.declared.event.Event.{Event};
ghost use Rattle.pool_model.specs.Legal.{IsLegal};
ghost use Rattle.pool_model.specs.Pool.{live_words, pool_of};
ghost use Rattle.trace_text.specs.Traces.{IsTrace};
ghost use Rattle.trace_text.specs.declared.trace.Trace.{Trace};
ghost use Rattle.lane_outcomes.specs.declared.outcome.Outcome.{Outcome};
ghost use Rattle.lane_outcomes.specs.Cached.{CachedFits, CachedOutcomesFit};
ghost use Rattle.lane_outcomes.specs.LaneCounts.{as_one, as_words};
ghost use Rattle.lane_outcomes.specs.Report.{report_of};
ghost use Rattle.lane_outcomes.specs.Standing.{setting_in};
ghost use Rattle.roomy_traces.specs.Roomy.{IsRoomy, most_held, no_blocks};
ghost use Rattle.roomy_traces.specs.Serial.{left_by, serial_outcomes, serial_report_of, without_place};
ghost use Rattle.roomy_traces.specs.Through.{IsRoomyThrough, none_kept, serial_hits, served_from};

/// Whatever legal history the lanes ran in, each through a cache of its own: their outcomes are those of each
/// lane on its own, but for the places of the blocks; what is live is what the lanes hold at their ends; and
/// the report is the one that is computed lane by lane, as without caches.
pub fn roomy_caches_have_one_report()
    ensures outcomes { (trace : Trace) (history : List Event) (lost depth : ℕ) (outcomes : List (List Outcome)) (hits : ℕ)
        → IsTrace trace → IsRoomyThrough depth trace → IsLegal trace.heap history
        → CachedOutcomesFit trace.heap history lost depth trace.lanes outcomes hits
        → map (map without_place) outcomes ≡ map serial_outcomes trace.lanes }
    ensures left { (trace : Trace) (history : List Event) (lost depth : ℕ) (outcomes : List (List Outcome)) (hits : ℕ)
        → IsTrace trace → IsRoomyThrough depth trace → IsLegal trace.heap history
        → CachedOutcomesFit trace.heap history lost depth trace.lanes outcomes hits
        → (length (pool_of history) ≡ left_by as_one trace.lanes) × (live_words (pool_of history) ≡ left_by as_words trace.lanes) }
    ensures report { (trace : Trace) (history : List Event) (lost depth : ℕ) (outcomes : List (List Outcome)) (hits : ℕ)
        → IsTrace trace → IsRoomyThrough depth trace → IsLegal trace.heap history
        → CachedOutcomesFit trace.heap history lost depth trace.lanes outcomes hits
        → report_of trace outcomes history ≡ serial_report_of trace }
{}

/// So many operations are served: in each lane those that its magazines serve in the lane on its own, and all
/// these together.
pub fn roomy_caches_have_one_number_of_hits()
    ensures lane { (trace : Trace) (history : List Event) (lost depth : ℕ) (outcomes : List (List Outcome)) (hits lane these : ℕ)
        → IsTrace trace → IsRoomyThrough depth trace → IsLegal trace.heap history
        → CachedOutcomesFit trace.heap history lost depth trace.lanes outcomes hits → lane < length trace.lanes
        → CachedFits (setting_in history lane trace.heap.turn_limit lost) depth (slice_index_or trace.lanes lane []) (slice_index_or outcomes lane []) these
        → these ≡ served_from depth no_blocks none_kept (slice_index_or trace.lanes lane []) }
    ensures lanes { (trace : Trace) (history : List Event) (lost depth : ℕ) (outcomes : List (List Outcome)) (hits : ℕ)
        → IsTrace trace → IsRoomyThrough depth trace → IsLegal trace.heap history
        → CachedOutcomesFit trace.heap history lost depth trace.lanes outcomes hits
        → hits ≡ serial_hits depth trace.lanes }
{}

/// A roomy trace with a frame more for each block that its magazines have room for is roomy through caches:
/// so each roomy one is through caches without room.
pub fn roomy_traces_are_roomy_through_caches()
    ensures { (depth : ℕ) (trace : Trace) → IsRoomy trace
        → sum_by (most_held no_blocks) trace.lanes + length trace.lanes * (CLASSES * depth) + trace.heap.heaps * CLASSES + trace.heap.callers
        ≤ trace.heap.frames
        → IsRoomyThrough depth trace }
{}
