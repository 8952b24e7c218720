//! What the answer of a call means.

ghost use Rattle.std.specs.Prelude.{ℕ, ◌≡◌, ◌<◌};
ghost use Rattle.heap_geometry.specs.declared.geometry.Geometry.{Geometry};
ghost use Rattle.errand_steps.specs.declared.reply.Progress.TheVariants.{Done};
ghost use Rattle.errand_steps.specs.declared.reply.Reply.{Reply};
ghost use Rattle.errand_steps.specs.Errands.{answer_of};
ghost use Rattle.errand_steps.specs.Steps.{State, Step, found_at};
ghost use Rattle.sound_state.specs.Answers.{IsMeant};
ghost use Rattle.sound_state.specs.Sound.{IsSoundWithoutCounts};

/// The step that ends a call answers what is so: whoever is given a block or takes one owns it, a read
/// is of the caller's own block and finds what was written there, a refusal was told, and a shelf that is
/// full or that changed holds what the answer says.
pub fn answers_are_meant()
    ensures { (g : Geometry) (s : State) (caller : ℕ) (reply : Reply) (after : State)
        → IsSoundWithoutCounts g s → caller < g.callers → Step s caller after
        → answer_of (s.errand caller) (found_at s caller) ≡ Done reply → IsMeant g s caller reply after }
{}
