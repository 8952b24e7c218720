//! Laws of the hazard words, and of the descriptors that they keep from being reused.

ghost use Rattle.std.specs.Prelude.{ℕ, List, Some, ◌≡◌, ◌≢◌, ◌<◌};
ghost use Rattle.heap_geometry.specs.declared.geometry.Geometry.{Geometry};
ghost use Rattle.word_table.specs.declared.name.WordName.TheVariants as name;
ghost use Rattle.word_table.specs.Seats.{SeatFields};
ghost use Rattle.step_parts.specs.declared.hazard.point.DescPoint.TheVariants.{PopDesc};
ghost use Rattle.errand_steps.specs.declared.continuation.Continuation.{Continuation};
ghost use Rattle.errand_steps.specs.declared.point.Point.TheVariants as point;
ghost use Rattle.errand_steps.specs.Fits.{pushed_by};
ghost use Rattle.errand_steps.specs.Steps.{State, Step};
ghost use Rattle.sound_state.specs.Guarding.{IsAvailable, IsGuardedBy, ReachesUnstored};
ghost use Rattle.sound_state.specs.Guards.{Guards};
ghost use Rattle.sound_state.specs.Runs.{Move};
ghost use Rattle.sound_state.specs.Sound.{IsSoundWithoutCounts};

/// Whatever a caller guards nobody is about to push on the available descriptors: no scan has picked it,
/// and whoever has retired it and has read the caller's hazard word in a scan has noted it there.
pub fn guarded_are_not_pushed()
    ensures { (g : Geometry) (s : State) (caller d : ℕ) → IsSoundWithoutCounts g s → caller < g.callers → Guards s caller d
        → IsGuardedBy g s caller d }
{}

/// No descriptor goes back to the available ones but by a caller's push of it: one that is available after
/// a step and that the caller was not about to push was available before.
pub fn only_pushes_make_available()
    ensures { (g : Geometry) (s : State) (caller d : ℕ) (after : State) → IsSoundWithoutCounts g s → caller < g.callers
        → Step s caller after → pushed_by (s.errand caller).point ≢ Some d → IsAvailable g after d → IsAvailable g s d }
{}

/// As long as the descriptor that a caller is about to pop is available, the one below it is the one that
/// the caller noted: so a pop that is won puts that one on top.
pub fn what_lies_below_is_noted()
    ensures { (g : Geometry) (s : State) (caller d next : ℕ) (seat : SeatFields) (o : Continuation) → IsSoundWithoutCounts g s
        → caller < g.callers → (s.errand caller).point ≡ point.Desc (PopDesc seat d next) o → IsAvailable g s d
        → s.word (name.Next d) ≡ next }
{}

/// A guard lasts until its caller stores to its own hazard word again, whatever calls begin and whatever
/// steps are made, by other callers or by this one: also where the caller has lost the exchange for which
/// it guarded the descriptor, and goes on with another one. So a guarded descriptor does not go back to the
/// available ones.
pub fn guards_last()
    ensures guarded { (g : Geometry) (caller d : ℕ) (s : State) (moves : List Move) (after : State) → IsSoundWithoutCounts g s
        → caller < g.callers → Guards s caller d → ReachesUnstored g caller s moves after → IsGuardedBy g after caller d }
    ensures kept { (g : Geometry) (caller d : ℕ) (s : State) (moves : List Move) (after : State) → IsSoundWithoutCounts g s
        → caller < g.callers → IsGuardedBy g s caller d → ReachesUnstored g caller s moves after → IsGuardedBy g after caller d }
    ensures unavailable { (g : Geometry) (caller d : ℕ) (s : State) (moves : List Move) (after : State) → IsSoundWithoutCounts g s
        → caller < g.callers → IsGuardedBy g s caller d → ReachesUnstored g caller s moves after
        → IsAvailable g after d → IsAvailable g s d }
{}
