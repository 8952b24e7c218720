//! Laws of sums over the callers.

ghost use Rattle.std.specs.Prelude.{ℕ, ◌≡◌, List, sum_by};
ghost use Rattle.heap_geometry.specs.declared.geometry.Geometry.{Geometry};
ghost use Rattle.errand_steps.specs.Errands.{ErrandFields};
ghost use Rattle.sound_state.specs.Sums.{callers_sum};
ghost use Rattle.sound_state.specs.Totals.{AreAllErrands};

/// What the callers' errands weigh together is what a list of them weighs, in which each stands once.
pub fn callers_are_summed_in_any_order()
    ensures { (g : Geometry) (errands : ℕ → ErrandFields) (list : List ErrandFields) (weight : ErrandFields → ℕ)
        → AreAllErrands g errands list → callers_sum g weight errands ≡ sum_by weight list }
{}
