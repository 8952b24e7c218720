//! Laws of fitting outcomes, on functions that do nothing.

ghost use Rattle.std.specs.Prelude.{ℕ, ◌≡◌, ◌≤◌, ◌∷◌, ◌++◌, List, [], length, slice_index_or};
ghost use Rattle.heap_geometry.specs.declared.geometry.Geometry.{Geometry};
ghost use Rattle.pool_model.specs.declared.event.Event.{Event};
ghost use Rattle.pool_model.specs.Histories.{own, Begins};
ghost use Rattle.pool_model.specs.Pool.{pool_of};
ghost use Rattle.pool_model.specs.Legal.{IsLegalWithoutCounts};
ghost use Rattle.trace_text.specs.declared.trace.Op.{Op};
ghost use Rattle.trace_text.specs.declared.trace.Op.TheVariants.{Check, Resize};
ghost use Rattle.lane_outcomes.specs.declared.outcome.Outcome.{Outcome};
ghost use Rattle.lane_outcomes.specs.declared.outcome.Outcome.TheVariants.{Resized, Sum};
ghost use Rattle.lane_outcomes.specs.Lane.{Position, start};
ghost use Rattle.lane_outcomes.specs.Rows.{Setting, Moment};
ghost use Rattle.lane_outcomes.specs.Fits.{Fits, OutcomesFit, Walks};
ghost use Rattle.lane_outcomes.specs.Standing.{HoldsOwn, setting_in};
ghost use Rattle.lane_outcomes.specs.Written.{HoldsWritten, ShelvesWritten, SumsWritten, CopiesWritten};

/// A lane's outcomes still fit when a history goes on with events of other callers.
pub fn outcomes_fit_on()
    ensures { (setting : Setting) (rest : List Event) (lost : ℕ) (operations : List Op) (outcomes : List Outcome)
        → setting.lost ≤ lost → own setting.caller rest ≡ [] → Fits setting operations outcomes
        → Fits (record setting { history = setting.history ++ rest; lost = lost }) operations outcomes }
{}

/// Whatever other callers did in between: at each moment at which a lane has made exactly its events so
/// far, its full registers hold blocks that it owns, each with its need and its words, and no two the same block.
pub fn registers_hold_own_blocks()
    ensures { (g : Geometry) (setting : Setting) (operations : List Op) (outcomes : List Outcome) (position : Position)
        → IsLegalWithoutCounts g setting.history → Walks setting start operations outcomes position
        → (moment : Moment setting position.done) → HoldsOwn (pool_of moment.before) setting.caller position.registers }
{}

/// Lanes fill a block as they are given it, before anything else is done to it. So where all callers are
/// lanes whose outcomes fit, each word was written of a block that lies on a shelf, of one that a lane
/// holds between two of its operations, of one that a check sums, and of one that a resize copies.
pub fn checked_words_were_written()
    ensures shelved { (g : Geometry) (history before : List Event) (lost : ℕ) (lanes : List (List Op)) (outcomes : List (List Outcome))
        → IsLegalWithoutCounts g history → OutcomesFit g history lost lanes outcomes → Begins before history
        → ShelvesWritten (pool_of before) }
    ensures held { (g : Geometry) (setting : Setting) (lost : ℕ) (lanes : List (List Op)) (outcomes : List (List Outcome))
        (operations : List Op) (results : List Outcome) (position : Position)
        → IsLegalWithoutCounts g setting.history → OutcomesFit g setting.history lost lanes outcomes
        → Walks setting start operations results position → (moment : Moment setting position.done)
        → HoldsWritten (pool_of moment.before) position.registers }
    ensures checked { (g : Geometry) (history : List Event) (lost : ℕ) (lanes : List (List Op)) (outcomes : List (List Outcome))
        (lane r total : ℕ) (earlier later : List Op) (results more : List Outcome)
        → IsLegalWithoutCounts g history → OutcomesFit g history lost lanes outcomes
        → slice_index_or lanes lane [] ≡ earlier ++ Check r ∷ later → slice_index_or outcomes lane [] ≡ results ++ Sum total ∷ more
        → length results ≡ length earlier
        → (position : Position) × Walks (setting_in history lane g.turn_limit lost) start earlier results position
        × SumsWritten (setting_in history lane g.turn_limit lost) position r total }
    ensures copied { (g : Geometry) (history : List Event) (lost : ℕ) (lanes : List (List Op)) (outcomes : List (List Outcome))
        (lane r need words place : ℕ) (earlier later : List Op) (results more : List Outcome)
        → IsLegalWithoutCounts g history → OutcomesFit g history lost lanes outcomes
        → slice_index_or lanes lane [] ≡ earlier ++ Resize r need ∷ later
        → slice_index_or outcomes lane [] ≡ results ++ Resized words place ∷ more → length results ≡ length earlier
        → (position : Position) × Walks (setting_in history lane g.turn_limit lost) start earlier results position
        × CopiesWritten (setting_in history lane g.turn_limit lost) position r need words place }
{}
