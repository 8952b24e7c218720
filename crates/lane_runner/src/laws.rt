//! Laws of lanes, on functions that do nothing.

ghost use Rattle.std.specs.Prelude.{ℕ, ◌≡◌, ◌<◌, [], List, None, All, Contains, length, replicate, slice_index_or, sum};
ghost use Rattle.trace_text.specs.declared.limits.TheConstants.{REGISTERS};
ghost use Rattle.trace_text.specs.declared.trace.Op.{Op};
ghost use Rattle.trace_text.specs.declared.trace.OrderRun.{OrderRun};
ghost use Rattle.trace_text.specs.declared.trace.Trace.{Trace};
ghost use Rattle.trace_text.specs.Traces.{IsTrace};
ghost use Rattle.lane_outcomes.specs.declared.outcome.Outcome.{Outcome};
ghost use Rattle.lane_outcomes.specs.declared.outcome.Outcome.TheVariants.{Spent};
ghost use Rattle.lane_outcomes.specs.Cached.{CachedOutcomesFit};
ghost use Rattle.lane_outcomes.specs.Fits.{OutcomesFit};
ghost use Rattle.sound_laws.specs.bounds.Contention.{lost_of};
ghost use Rattle.sound_state.specs.Sums.{callers_sum};
ghost use Rattle.step_machine.specs.Cores.{CoreFields, errand_at};
ghost use Rattle.block_cache.specs.declared.cache.Cache.{Cache};
ghost use Rattle.lane_engine.specs.Caches.{IsCachedCall};
ghost use Rattle.live_heap.specs.Heaps.{HeapFields};
ghost use Rattle.live_heap.specs.declared.pass.Pass.{Pass};
ghost use Rattle.live_heap.specs.Endings.{ClosedFields, HasClosed, IsResting};
ghost use Rattle.sound_laws.specs.events.Made.{LeadsBy, Made};
ghost use Rattle.trace_lane.specs.Made.{calls_made};
ghost use Rattle.trace_lane.specs.Scripts.{Scripts};
ghost use Rattle.lane_runner.specs.Driven.{IsDriven};
ghost use Rattle.lane_runner.specs.Passes.{HasMadeCalls, HaveRun, WholeAt};
ghost use Rattle.lane_runner.specs.Shared.{IsShared, IsSharedThrough};
ghost use Rattle.lane_runner.specs.Threads.{HasEndedThrough, HaveRunThrough};

/// Lanes that ran on threads through caches of depth 0 have run on their passes alone: each pass has made the
/// calls of its lane, and no magazine served one.
pub fn lanes_without_magazines_run_on_passes()
    ensures { (trace : Trace) (h : HeapFields) (passes : List Pass) (outcomes : List (List Outcome)) (hits : List ℕ) → IsTrace trace
        → HaveRunThrough trace h 0 passes outcomes hits → HaveRun trace h passes outcomes × All (λ n. n ≡ 0) hits }
{}

/// The outcomes of lanes that ran on threads fit the one history of their heap, once it is closed, and
/// however many exchanges all callers lost in it.
pub fn closed_lanes_fit()
    ensures { (trace : Trace) (h : HeapFields) (passes : List Pass) (outcomes : List (List Outcome)) (c : ClosedFields) → IsTrace trace
        → h.layout ≡ trace.heap → HaveRun trace h passes outcomes → HasClosed h passes c → IsResting c
        → OutcomesFit trace.heap c.events (callers_sum c.geometry lost_of (errand_at c.errands)) trace.lanes outcomes }
{}

/// The outcomes and hits of lanes that ran on threads through caches fit it too.
pub fn closed_lanes_fit_through_caches()
    ensures { (trace : Trace) (h : HeapFields) (depth : ℕ) (passes : List Pass) (outcomes : List (List Outcome)) (hits : List ℕ) (c : ClosedFields)
        → IsTrace trace → h.layout ≡ trace.heap → HaveRunThrough trace h depth passes outcomes hits → HasClosed h passes c → IsResting c
        → CachedOutcomesFit trace.heap c.events (callers_sum c.geometry lost_of (errand_at c.errands)) depth trace.lanes outcomes (sum hits) }
{}

/// The whole calls that a lane on threads has made are, in their order, those that a lane which goes step
/// by step begins for the same outcomes; through a cache too.
pub fn threads_make_the_calls_of_their_script()
    ensures through { (h : HeapFields) (depth : ℕ) (operations : List Op) (lane : ℕ) (outcomes : List Outcome) (c : Cache)
        → (ended : HasEndedThrough h depth operations lane outcomes c)
        → (made : List Made) × LeadsBy (IsCachedCall h) ended.first made ended.through.ran
        × Scripts (replicate REGISTERS None) operations outcomes (calls_made made) }
    ensures on_passes { (h : HeapFields) (operations : List Op) (lane : ℕ) (outcomes : List Outcome) (p : Pass)
        → (calls : HasMadeCalls h operations lane outcomes p)
        → (made : List Made) × LeadsBy (WholeAt h) calls.first made p
        × Scripts (replicate REGISTERS None) operations outcomes (calls_made made) }
{}

/// A lane that was told to have no turn left has itself taken as many as the limit: on threads, also through
/// caches, and on a machine.
pub fn spent_lanes_took_their_turns()
    ensures on_threads { (trace : Trace) (c : ClosedFields) (outcomes : List (List Outcome)) (lane : ℕ) → IsTrace trace → IsShared trace c outcomes
        → lane < length trace.lanes → Contains (slice_index_or outcomes lane []) Spent
        → (errand_at c.errands lane).turns ≡ trace.heap.turn_limit }
    ensures through_caches { (trace : Trace) (depth : ℕ) (c : ClosedFields) (outcomes : List (List Outcome)) (hits : List ℕ) (lane : ℕ) → IsTrace trace
        → IsSharedThrough trace depth c outcomes hits → lane < length trace.lanes → Contains (slice_index_or outcomes lane []) Spent
        → (errand_at c.errands lane).turns ≡ trace.heap.turn_limit }
    ensures on_machine { (trace : Trace) (orders : List OrderRun) (c : CoreFields) (outcomes : List (List Outcome)) (lane : ℕ)
        → IsDriven trace orders c outcomes → lane < length trace.lanes → Contains (slice_index_or outcomes lane []) Spent
        → (errand_at c.errands lane).turns ≡ trace.heap.turn_limit }
{}
