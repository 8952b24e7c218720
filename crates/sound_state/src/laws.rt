//! Laws of the sound state: theorems about the definitions, on functions that do nothing.

ghost use Rattle.std.specs.Prelude.{ℕ, List, All, ◌<◌};
ghost use Rattle.heap_geometry.specs.declared.geometry.Geometry.{Geometry};
ghost use Rattle.heap_geometry.specs.declared.limits.TheConstants.{CLASSES};
ghost use Rattle.heap_geometry.specs.Geometry.{IsChecked};
ghost use Rattle.pool_model.specs.Legal.{IsLegal};
ghost use Rattle.errand_steps.specs.Calls.{Call};
ghost use Rattle.errand_steps.specs.Openings.{opening, installed, IsOpening};
ghost use Rattle.errand_steps.specs.Steps.{State, Step, Run};
ghost use Rattle.sound_state.specs.Runs.{BeginsCall, Move, Reaches};
ghost use Rattle.sound_state.specs.Sound.{IsSound, IsSoundWithoutCounts, TellsCounted};

pub mod answers;
pub mod consequences;
pub mod guards;
pub mod sums;
pub mod tags;

/// A state before the first step is sound: every frame is free, every descriptor available, and
/// nothing is live.
pub fn opening_is_sound()
    ensures { (g : Geometry) (s : State) → IsChecked g → IsOpening g (opening g) s → IsSound g s }
{}

/// So it is where frame 0 has a superblock from the start, of descriptor 0 and of any class, all of
/// whose blocks are free and which is the active one of processor heap 0.
pub fn installed_is_sound()
    ensures { (g : Geometry) (class : ℕ) (s : State) → IsChecked g → class < CLASSES
        → IsOpening g (installed g class) s → IsSound g s }
{}

/// The two numbers of a legal history, those of a look and of a refusal, follow from the rest. They are
/// a matter of the history alone; and in a state that is sound without them whatever a caller tells
/// next has its number: a look leaves few part-used frames of its class, and a refusal few bare ones.
pub fn counts_follow()
    ensures dropped { (g : Geometry) (s : State) → IsSound g s → IsSoundWithoutCounts g s }
    ensures added { (g : Geometry) (s : State) → IsSoundWithoutCounts g s → IsLegal g s.history → IsSound g s }
    ensures told { (g : Geometry) (s : State) (caller : ℕ) → IsSoundWithoutCounts g s → caller < g.callers
        → TellsCounted g s caller }
{}

/// A call that begins under its condition keeps the state sound.
pub fn begun_calls_keep_sound()
    ensures { (g : Geometry) (s : State) (caller : ℕ) (call : Call) (after : State)
        → IsSound g s → caller < g.callers → BeginsCall s caller call after → IsSound g after }
{}

/// So does every step of every caller, wherever the others stand.
pub fn steps_keep_sound()
    ensures { (g : Geometry) (s : State) (caller : ℕ) (after : State)
        → IsSound g s → caller < g.callers → Step s caller after → IsSound g after }
{}

/// And every run of steps, of any callers in any order.
pub fn runs_keep_sound()
    ensures { (g : Geometry) (s : State) (callers : List ℕ) (n : ℕ) (after : State)
        → IsSound g s → All (λ caller. caller < g.callers) callers → Run s callers n after → IsSound g after }
{}

/// Every state that callers reach from the state before the first step is sound, whatever calls they
/// begin and in whatever order they make steps.
pub fn reached_states_are_sound()
    ensures opening { (g : Geometry) (s : State) (moves : List Move) (after : State) → IsChecked g
        → IsOpening g (opening g) s → Reaches g s moves after → IsSound g after }
    ensures installed { (g : Geometry) (class : ℕ) (s : State) (moves : List Move) (after : State) → IsChecked g → class < CLASSES
        → IsOpening g (installed g class) s → Reaches g s moves after → IsSound g after }
{}
