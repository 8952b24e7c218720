//! Laws of the outcomes of lanes that run through caches, on functions that do nothing.

ghost use Rattle.std.specs.Prelude.{ℕ, ◌≡◌, ◌≤◌, ◌-◌, ◌^◌, ◌∷◌, ◌++◌, List, [], Some, length, map, slice_index_or};
ghost use Rattle.std.specs.List.{All};
ghost use Rattle.heap_geometry.specs.declared.geometry.Geometry.{Geometry};
ghost use Rattle.pool_model.specs.declared.event.Event.{Event};
ghost use Rattle.pool_model.specs.Histories.{Begins, own};
ghost use Rattle.pool_model.specs.Legal.{IsLegalWithoutCounts};
ghost use Rattle.pool_model.specs.Pool.{pool_of, live_words};
ghost use Rattle.trace_text.specs.declared.trace.Op.{Op};
ghost use Rattle.trace_text.specs.declared.trace.Op.TheVariants.{Check, Resize};
ghost use Rattle.trace_text.specs.declared.trace.Trace.{Trace};
ghost use Rattle.trace_text.specs.Traces.{IsTrace};
ghost use Rattle.lane_outcomes.specs.declared.outcome.Outcome.{Outcome};
ghost use Rattle.lane_outcomes.specs.declared.outcome.Outcome.TheVariants.{Resized, Sum};
ghost use Rattle.lane_outcomes.specs.Fits.{Fits, OutcomesFit};
ghost use Rattle.lane_outcomes.specs.LaneCounts.{AreHeld, as_one, as_words, lane_given, lanes_given, live_of};
ghost use Rattle.lane_outcomes.specs.Rows.{Moment, Setting};
ghost use Rattle.lane_outcomes.specs.Standing.{HoldsOwn, setting_in};
ghost use Rattle.lane_outcomes.specs.Written.{HoldsWritten, ShelvesWritten, SumsWritten};
ghost use Rattle.lane_outcomes.specs.WrittenThrough.{CopiesWrittenThrough};
ghost use Rattle.lane_outcomes.specs.Cached.{CachedFits, CachedOutcomesFit, CachedPosition, CachedWalks, cached_start};
ghost use Rattle.lane_outcomes.specs.Magazines.{kept_from};

/// Without room in any magazine nothing is served, and the outcomes fit just as those of lanes without caches.
pub fn caches_without_room_are_none()
    ensures lane { (setting : Setting) (operations : List Op) (results : List Outcome) (hits : ℕ)
        → CachedFits setting 0 operations results hits → Fits setting operations results × (hits ≡ 0) }
    ensures lanes { (g : Geometry) (history : List Event) (lost : ℕ) (lanes : List (List Op)) (outcomes : List (List Outcome)) (hits : ℕ)
        → CachedOutcomesFit g history lost 0 lanes outcomes hits → OutcomesFit g history lost lanes outcomes × (hits ≡ 0) }
{}

/// A lane's outcomes still fit when a history goes on with events of other callers.
pub fn cached_outcomes_fit_on()
    ensures { (setting : Setting) (rest : List Event) (lost depth : ℕ) (operations : List Op) (results : List Outcome) (hits : ℕ)
        → setting.lost ≤ lost → own setting.caller rest ≡ [] → CachedFits setting depth operations results hits
        → CachedFits (record setting { history = setting.history ++ rest; lost = lost }) depth operations results hits }
{}

/// Whatever other callers did in between: at each moment at which a lane has made exactly its events so
/// far, its full registers and its magazines hold blocks that it owns, each with its need and its words,
/// and no two the same block.
pub fn registers_and_magazines_hold_own_blocks()
    ensures { (g : Geometry) (setting : Setting) (depth : ℕ) (operations : List Op) (results : List Outcome) (position : CachedPosition)
        → IsLegalWithoutCounts g setting.history → CachedWalks setting depth cached_start operations results position
        → (moment : Moment setting position.base.done)
        → HoldsOwn (pool_of moment.before) setting.caller
        (map (λ held. Some held) (kept_from 0 position.magazines) ++ position.base.registers) }
{}

/// What lanes were given less what they freed is what is live, as without caches: what `live_count`
/// answers are the blocks of the history's pool, and their words.
pub fn live_blocks_are_counted()
    ensures { (trace : Trace) (history : List Event) (lost depth : ℕ) (outcomes : List (List Outcome)) (hits : ℕ)
        → IsTrace trace → AreHeld outcomes → IsLegalWithoutCounts trace.heap history
        → CachedOutcomesFit trace.heap history lost depth trace.lanes outcomes hits
        → (live_of as_one (2 ^ 32 - 1) trace.lanes outcomes ≡ length (pool_of history))
        × (live_of as_words (2 ^ 64 - 1) trace.lanes outcomes ≡ live_words (pool_of history)) }
{}

/// No magazine ever has more blocks than the depth, and each hit gave one of the blocks that were given.
pub fn magazines_and_hits_are_bounded()
    ensures depth { (setting : Setting) (depth : ℕ) (operations : List Op) (results : List Outcome) (position : CachedPosition)
        → CachedWalks setting depth cached_start operations results position
        → All (λ magazine. length magazine ≤ depth) position.magazines }
    ensures lane { (setting : Setting) (depth : ℕ) (operations : List Op) (results : List Outcome) (hits : ℕ)
        → CachedFits setting depth operations results hits → hits ≤ lane_given as_one operations results }
    ensures lanes { (g : Geometry) (history : List Event) (lost depth : ℕ) (lanes : List (List Op)) (outcomes : List (List Outcome)) (hits : ℕ)
        → CachedOutcomesFit g history lost depth lanes outcomes hits → hits ≤ lanes_given as_one lanes outcomes }
{}

/// Through caches too a lane fills a block as it is given it, also one that a magazine serves. So where all
/// callers are lanes whose outcomes fit, each word was written of a block that lies on a shelf, of one that a
/// lane's registers or magazines hold between two of its operations, of one that a check sums, and of one that
/// a resize copies.
pub fn checked_words_were_written_through_caches()
    ensures shelved { (g : Geometry) (history before : List Event) (lost depth : ℕ) (lanes : List (List Op)) (outcomes : List (List Outcome)) (hits : ℕ)
        → IsLegalWithoutCounts g history → CachedOutcomesFit g history lost depth lanes outcomes hits → Begins before history
        → ShelvesWritten (pool_of before) }
    ensures held { (g : Geometry) (setting : Setting) (lost depth : ℕ) (lanes : List (List Op)) (outcomes : List (List Outcome)) (hits : ℕ)
        (operations : List Op) (results : List Outcome) (position : CachedPosition)
        → IsLegalWithoutCounts g setting.history → CachedOutcomesFit g setting.history lost depth lanes outcomes hits
        → CachedWalks setting depth cached_start operations results position → (moment : Moment setting position.base.done)
        → HoldsWritten (pool_of moment.before) (map (λ held. Some held) (kept_from 0 position.magazines) ++ position.base.registers) }
    ensures checked { (g : Geometry) (history : List Event) (lost depth : ℕ) (lanes : List (List Op)) (outcomes : List (List Outcome)) (hits : ℕ)
        (lane r total : ℕ) (earlier later : List Op) (results more : List Outcome)
        → IsLegalWithoutCounts g history → CachedOutcomesFit g history lost depth lanes outcomes hits
        → slice_index_or lanes lane [] ≡ earlier ++ Check r ∷ later → slice_index_or outcomes lane [] ≡ results ++ Sum total ∷ more
        → length results ≡ length earlier
        → (position : CachedPosition) × CachedWalks (setting_in history lane g.turn_limit lost) depth cached_start earlier results position
        × SumsWritten (setting_in history lane g.turn_limit lost) position.base r total }
    ensures copied { (g : Geometry) (history : List Event) (lost depth : ℕ) (lanes : List (List Op)) (outcomes : List (List Outcome)) (hits : ℕ)
        (lane r need words place : ℕ) (earlier later : List Op) (results more : List Outcome)
        → IsLegalWithoutCounts g history → CachedOutcomesFit g history lost depth lanes outcomes hits
        → slice_index_or lanes lane [] ≡ earlier ++ Resize r need ∷ later
        → slice_index_or outcomes lane [] ≡ results ++ Resized words place ∷ more → length results ≡ length earlier
        → (position : CachedPosition) × CachedWalks (setting_in history lane g.turn_limit lost) depth cached_start earlier results position
        × CopiesWrittenThrough (setting_in history lane g.turn_limit lost) depth position r need words place }
{}
