//! Laws of large blocks: theorems about the definitions, on functions that do nothing.

ghost use Rattle.std.specs.Prelude.{ℕ, Option, Some, ◌≡◌, ◌<◌, ◌≤◌, ◌+◌, ◌^◌};
ghost use Rattle.std.specs.Int.{bit_at};
ghost use Rattle.heap_geometry.specs.declared.geometry.Geometry.{Geometry};
ghost use Rattle.heap_geometry.specs.declared.limits.TheConstants.{MAX_UNITS};
ghost use Rattle.heap_geometry.specs.Geometry.{IsChecked};
ghost use Rattle.word_table.specs.declared.action.Found.{Found};
ghost use Rattle.word_table.specs.Actions.{after_action, name_of};
ghost use Rattle.word_table.specs.Onwards.{IsOnward};
ghost use Rattle.word_table.specs.Table.{Exists};
ghost use Rattle.step_parts.specs.large.Points.{FitsLarge, FitsLargeExit, first_wanted, plan_large_of, settle_large_of};
ghost use Rattle.step_parts.specs.large.Runs.{RunFields, WantFields};
ghost use Rattle.step_parts.specs.large.Units.{IsInRun, IsFirstRun, first_run_of, with_run, without_run};
ghost use Rattle.step_parts.specs.declared.large.point.LargePoint.{LargePoint};

/// The first run is the lowest of the free ones, and nothing else is.
pub fn first_run_is_the_lowest()
    ensures exact { (bits units n : ℕ) → IsFirstRun bits units n (first_run_of bits units n) }
    ensures alone { (bits units n : ℕ) (found : Option ℕ) → IsFirstRun bits units n found
        → found ≡ first_run_of bits units n }
{}

/// With a run, the units of the run are taken, and the others as before. That is what a step leaves
/// that takes the first free run.
pub fn run_is_taken()
    ensures step { (w : WantFields) (bits first : ℕ) → first_wanted w bits ≡ Some first
        → after_action (plan_large_of (LargePoint.TakeRun w bits)) bits ≡ with_run bits first w.units }
    ensures inside { (bits first units i : ℕ) → IsInRun first units i
        → bit_at (with_run bits first units) i ≡ 1 }
    ensures outside { (bits first units i : ℕ) → ¬ IsInRun first units i
        → bit_at (with_run bits first units) i ≡ bit_at bits i }
    ensures within { (bits first units : ℕ) → first + units ≤ MAX_UNITS → bits < 2 ^ 64
        → with_run bits first units < 2 ^ 64 }
{}

/// Without a run, the units of the run are clear, and the others as before. That is what a step
/// leaves that frees the run.
pub fn run_is_given_back()
    ensures step { (place : ℕ) (r : RunFields) (bits : ℕ)
        → after_action (plan_large_of (LargePoint.FreeRun place r)) bits ≡ without_run bits r.first r.units }
    ensures inside { (bits first units i : ℕ) → first + units ≤ MAX_UNITS → bits < 2 ^ 64
        → IsInRun first units i → bit_at (without_run bits first units) i ≡ 0 }
    ensures outside { (bits first units i : ℕ) → first + units ≤ MAX_UNITS → bits < 2 ^ 64
        → ¬ IsInRun first units i → bit_at (without_run bits first units) i ≡ bit_at bits i }
    ensures within { (bits first units : ℕ) → bits < 2 ^ 64 → without_run bits first units < 2 ^ 64 }
{}

/// A point whose memory exists in a heap acts on a word that exists there, and leads to such a
/// point, or such an exit, whatever it finds.
pub fn points_fit()
    ensures names { (g : Geometry) (p : LargePoint) → IsChecked g → FitsLarge g p
        → Exists g (name_of (plan_large_of p)) }
    ensures keeps { (g : Geometry) (p : LargePoint) (x : Found) → IsChecked g → x.value < 2 ^ 64
        → FitsLarge g p → IsOnward (FitsLarge g) (FitsLargeExit g) (settle_large_of p x) }
{}
