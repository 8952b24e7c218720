//! Which frames and units nobody uses, and who uses one first. Laws alone.

ghost use Rattle.std.specs.Prelude.{ℕ, ◌≡◌, ◌<◌, ◌⊎◌};
ghost use Rattle.heap_geometry.specs.declared.geometry.Geometry.{Geometry};
ghost use Rattle.word_table.specs.declared.name.WordName.TheVariants.{Arena};
ghost use Rattle.heap_geometry.specs.Geometry.{IsChecked};
ghost use Rattle.errand_steps.specs.Begins.{IsBusy};
ghost use Rattle.errand_steps.specs.Openings.{IsOpening, opening};
ghost use Rattle.errand_steps.specs.Steps.{State, Step, name_at};
ghost use Rattle.sound_state.specs.Sound.{IsSoundWithoutCounts};
ghost use Rattle.sound_laws.specs.uses.Pieces.{piece_count, piece_of};
ghost use Rattle.errand_steps.specs.Openers.{Opens};
ghost use Rattle.sound_laws.specs.uses.Uses.{IsUnused};

/// A piece that nobody uses stays so at every step, but where the step's caller is about to use it first.
pub fn pieces_are_taken_one_by_one()
    ensures { (g : Geometry) (s : State) (caller : ℕ) (after : State) (k : ℕ)
        → IsSoundWithoutCounts g s → caller < g.callers → Step s caller after → k < piece_count g → IsUnused g s.word k
        → IsUnused g after.word k ⊎ Opens g (after.errand caller).point k }
{}

/// A step is on no word of a piece that nobody uses, nor of one that another caller is about to use first.
pub fn steps_are_on_pieces_in_use()
    ensures { (g : Geometry) (s : State) (caller word : ℕ)
        → IsSoundWithoutCounts g s → caller < g.callers → IsBusy (s.errand caller) → name_at s caller ≡ Arena word
        → (IsUnused g s.word (piece_of g word) → ⊥)
        × ((other : ℕ) → other < g.callers → Opens g (s.errand other).point (piece_of g word) → other ≡ caller) }
{}

/// No two callers are about to use the same piece first.
pub fn pieces_are_opened_by_one()
    ensures { (g : Geometry) (s : State) (one other k : ℕ)
        → IsSoundWithoutCounts g s → one < g.callers → other < g.callers
        → Opens g (s.errand one).point k → Opens g (s.errand other).point k → one ≡ other }
{}

/// Before the first step nobody uses any piece.
pub fn pieces_are_unused_at_opening()
    ensures { (g : Geometry) (s : State) (k : ℕ) → IsChecked g → IsOpening g (opening g) s → k < piece_count g → IsUnused g s.word k }
{}
