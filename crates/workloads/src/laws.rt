//! Laws of the workloads: theorems about the definitions, on functions that do nothing.

ghost use Rattle.std.specs.Prelude.{ℕ, ◌≡◌};
ghost use Rattle.std.specs.List.{All};
ghost use Rattle.trace_text.specs.Traces.{IsTrace};
ghost use Rattle.workloads.specs.declared.kind.Kind.{Kind};
ghost use Rattle.workloads.specs.declared.kind.Kind.TheVariants as kinds;
ghost use Rattle.workloads.specs.Held.{AreFreed};
ghost use Rattle.workloads.specs.Made.{made};

/// Every workload is a trace that a text can name.
pub fn made_is_named()
    ensures { (kind : Kind) (size start : ℕ) → IsTrace (made kind size start) }
{}

/// Where lanes don't work in pairs, no register holds a block at the end of its lane: what a lane
/// allocates it frees.
pub fn lanes_free_what_they_hold()
    ensures { (kind : Kind) (size start : ℕ)
        → ¬ (kind ≡ kinds.Pipeline) → All AreFreed (made kind size start).lanes }
{}
