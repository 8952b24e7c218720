//! Laws of the tags in the anchors of superblocks.

ghost use Rattle.std.specs.Prelude.{ℕ, List, ◌≡◌, ◌≢◌, ◌<◌, ◌+◌};
ghost use Rattle.heap_geometry.specs.declared.geometry.Geometry.{Geometry};
ghost use Rattle.word_table.specs.declared.name.WordName.TheVariants as name;
ghost use Rattle.errand_steps.specs.Steps.{State, Step};
ghost use Rattle.sound_state.specs.Consequences.{IsBound};
ghost use Rattle.sound_state.specs.Runs.{Move};
ghost use Rattle.sound_state.specs.Sound.{IsSoundWithoutCounts};
ghost use Rattle.sound_state.specs.Superblocks.{anchor_for};
ghost use Rattle.sound_state.specs.Tags.{pops_from, ReachesBound};

/// As long as a descriptor has a superblock, the tag in its anchor counts the pops: a step that pops a
/// block of it raises the tag by one, and every other step of every caller leaves it. So it does over
/// moves of any callers, calls that begin among them.
pub fn tags_count_pops()
    ensures step { (g : Geometry) (s : State) (caller : ℕ) (after : State) (d : ℕ) → IsSoundWithoutCounts g s
        → caller < g.callers → Step s caller after → IsBound g s d
        → (anchor_for after d).tag ≡ (anchor_for s d).tag + pops_from s caller d }
    ensures run { (g : Geometry) (d : ℕ) (s : State) (moves : List Move) (n : ℕ) (after : State) → IsSoundWithoutCounts g s
        → ReachesBound g d s moves n after → (anchor_for after d).tag ≡ (anchor_for s d).tag + n }
{}

/// So a tag that a pop has left behind never returns: after it the tag is greater, and the anchor's word
/// another one, so that whoever expects the word of before loses.
pub fn popped_tags_never_return()
    ensures tag { (g : Geometry) (d : ℕ) (s : State) (moves : List Move) (n : ℕ) (after : State) → IsSoundWithoutCounts g s
        → ReachesBound g d s moves n after → 0 < n → (anchor_for s d).tag < (anchor_for after d).tag }
    ensures word { (g : Geometry) (d : ℕ) (s : State) (moves : List Move) (n : ℕ) (after : State) → IsSoundWithoutCounts g s
        → ReachesBound g d s moves n after → 0 < n → after.word (name.Anchor d) ≢ s.word (name.Anchor d) }
{}
