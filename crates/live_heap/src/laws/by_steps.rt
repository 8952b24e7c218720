//! The law of calls that are made step by step.

ghost use Rattle.std.specs.Prelude.{ℕ, suc, ◌≡◌, ◌≢◌};
ghost use Rattle.errand_steps.specs.declared.reply.Begun.TheVariants as begun;
ghost use Rattle.errand_steps.specs.declared.told.Ending.{Ending};
ghost use Rattle.errand_steps.specs.declared.told.Ending.TheVariants as ending;
ghost use Rattle.errand_steps.specs.declared.told.Stepped.{Stepped};
ghost use Rattle.errand_steps.specs.declared.told.Stepped.TheVariants as step;
ghost use Rattle.errand_steps.specs.Begins.{IsIdle, alloc_answer};
ghost use Rattle.errand_steps.specs.Calls.{Call, alloc, take};
ghost use Rattle.live_heap.specs.Heaps.{HeapFields};
ghost use Rattle.live_heap.specs.declared.block.Block.{Block};
ghost use Rattle.live_heap.specs.declared.pass.Pass.{Pass};
ghost use Rattle.live_heap.specs.Answers.{HasBegun, HasStepped, reply_of, with_lost};
ghost use Rattle.live_heap.specs.Calls.{HasCalled, IsCalling};
ghost use Rattle.live_heap.specs.Passes.{IsOf};
ghost use Rattle.live_heap.specs.Steps.{EndTells, HasStarted, IsDone, IsLastStep};
ghost use Rattle.live_heap.specs.Whole.{OwnsFor};

/// A call that is made step by step is a call, and says what the whole call says: it begins; each step that
/// doesn't end it goes on with it, and so it may be resumed; and the one that does ends it. A write, a read
/// and a put end with their first step, a take with its second; one that misses has lost one exchange more. An
/// allocation that its begin has not started leaves the pass as it was.
pub fn calls_go_step_by_step()
    ensures begins { (h : HeapFields) (p q : Pass) (call : Call) → IsOf h p → IsIdle p.errand → OwnsFor p call → HasStarted p call
        → HasBegun p call q → IsCalling p call 0 q }
    ensures goes_on { (first : Pass) (call : Call) (steps : ℕ) (p q : Pass) (told : Stepped Block) → IsCalling first call steps p
        → HasStepped p q told → ¬ IsDone told → IsCalling first call (suc steps) q }
    ensures ends { (first : Pass) (call : Call) (steps : ℕ) (p q : Pass) (end : Ending Block) → IsCalling first call steps p
        → HasStepped p q (step.Done end) → HasCalled first call steps (reply_of end) q }
    ensures tells { (h : HeapFields) (first : Pass) (call : Call) (steps : ℕ) (p q : Pass) (end : Ending Block) → IsOf h first → IsOf h p
        → IsOf h q → IsCalling first call steps p → HasStepped p q (step.Done end) → EndTells call end q }
    ensures last { (first : Pass) (call : Call) (steps : ℕ) (p q : Pass) (told : Stepped Block) → IsCalling first call steps p
        → IsLastStep call steps → HasStepped p q told → IsDone told }
    ensures take { (first p q : Pass) (shelf : ℕ) (told : Stepped Block) → IsCalling first (take shelf) 0 p → HasStepped p q told → told ≡ step.More }
    ensures moves { (p q : Pass) (told : Stepped Block) → HasStepped p q told → told ≢ step.Idle }
    ensures unstarted { (p q : Pass) (words : ℕ) → HasBegun p (alloc words) q → alloc_answer p.errand words ≢ begun.Started → q ≡ p }
    ensures missed { (first p q : Pass) (shelf expected found : ℕ) → IsIdle first.errand → IsCalling first (take shelf) 1 p
        → HasStepped p q (step.Done (ending.Missed expected found)) → q.errand ≡ with_lost first.errand }
{}
