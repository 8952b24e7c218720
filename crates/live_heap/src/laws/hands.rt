//! The laws of hands: the blocks that a pass holds go through its calls.

ghost use Rattle.std.specs.Prelude.{ℕ, ◌≡◌, ◌<◌, ◌+◌, List, ◌∷◌, ◌++◌, All, IfOk, Result, length, take, drop, slice_index_or};
ghost use Rattle.std.specs.Result.{IfErr};
ghost use Rattle.errand_steps.specs.declared.told.Ending.{Ending};
ghost use Rattle.errand_steps.specs.declared.told.Stepped.{Stepped};
ghost use Rattle.errand_steps.specs.Begins.{IsBusy, IsIdle};
ghost use Rattle.errand_steps.specs.declared.reply.Reply.TheVariants as reply;
ghost use Rattle.errand_steps.specs.Calls.{Call, put};
ghost use Rattle.step_machine.specs.Keeping.{LeavesPlace};
ghost use Rattle.live_heap.specs.declared.answers.AllocAnswer.{AllocAnswer};
ghost use Rattle.live_heap.specs.declared.answers.FreeAnswer.{FreeAnswer};
ghost use Rattle.live_heap.specs.declared.answers.Full.{Full};
ghost use Rattle.live_heap.specs.declared.answers.Resumed.{Resumed};
ghost use Rattle.live_heap.specs.declared.answers.Taken.{Taken};
ghost use Rattle.live_heap.specs.declared.block.Block.{Block};
ghost use Rattle.live_heap.specs.Heaps.{HeapFields};
ghost use Rattle.live_heap.specs.declared.pass.Pass.{Pass};
ghost use Rattle.live_heap.specs.Answers.{AllocTells, FreeTells, HasStepped, IsTried, PutTellsFull, ResumeTells, TakeTells, reply_of};
ghost use Rattle.live_heap.specs.Calls.{HasCalled, IsCalling};
ghost use Rattle.live_heap.specs.Hands.{IsHand, brought_by, brought_in, given_by, resumed_by, returned_by, taken_by};
ghost use Rattle.live_heap.specs.Holdings.{Holds};
ghost use Rattle.live_heap.specs.Passes.{IsOf, Owns};
ghost use Rattle.live_heap.specs.Steps.{EndTells};

/// A block in the hand is the pass's; and it may be taken out of the hand.
pub fn hands_give_out_blocks()
    ensures owned { (p : Pass) (blocks : List Block) (number : ℕ) (block : Block) → number < length blocks
        → block ≡ slice_index_or blocks number block → Holds p blocks → Owns p block }
    ensures removed { (p : Pass) (blocks rest : List Block) (number : ℕ) (block : Block) → number < length blocks
        → block ≡ slice_index_or blocks number block → rest ≡ take number blocks ++ drop (number + 1) blocks
        → Holds p blocks → Holds p (block ∷ rest) }
{}

/// A hand goes through every whole call: what the call is about has left the hand, what it brings is in it
/// behind the others, and an interrupted one waits with the others.
pub fn hands_go_through_calls()
    ensures alloc { (h : HeapFields) (p q : Pass) (blocks : List Block) (need tries : ℕ) (answer : AllocAnswer Block) → IsHand h p blocks
        → IsIdle p.errand → IsOf h q → AllocTells p need tries answer q → IsHand h q (blocks ++ given_by answer) }
    ensures free { (h : HeapFields) (p q : Pass) (block : Block) (blocks : List Block) (tries : ℕ) (answer : FreeAnswer) → IsOf h p
        → Holds p (block ∷ blocks) → IsOf h q → FreeTells p block tries answer q → IsHand h q blocks }
    ensures resumed { (h : HeapFields) (p q : Pass) (blocks : List Block) (tries : ℕ) (answer : Resumed) → IsHand h p blocks
        → IsBusy p.errand → IsOf h q
        → ((first : Pass) (call : Call) (made : ℕ) → IsOf h first → IsCalling first call made p → ResumeTells first call made p tries answer q)
        → IsHand h q (blocks ++ resumed_by answer) }
    ensures put { (h : HeapFields) (p q : Pass) (block : Block) (blocks : List Block) (shelf : ℕ) (answer : Result (Unit {0}) Full) → IsOf h p
        → Holds p (block ∷ blocks) → IsOf h q → IfOk answer (λ _. HasCalled p (put block.place block.need shelf) 0 reply.Put q)
        → IfErr answer (λ full. PutTellsFull p block shelf full q) → IsHand h q (blocks ++ returned_by answer) }
    ensures take { (h : HeapFields) (p q : Pass) (blocks : List Block) (shelf : ℕ) (answer : Taken Block) → IsOf h p → Holds p blocks → IsOf h q
        → TakeTells p shelf answer q → IsHand h q (blocks ++ taken_by answer) }
    ensures ended { (h : HeapFields) (p q : Pass) (blocks : List Block) (call : Call) (steps : ℕ) (end : Ending Block) → IsOf h p → Holds p blocks
        → IsOf h q → All (λ block. LeavesPlace call block.place) blocks → HasCalled p call steps (reply_of end) q → EndTells call end q
        → IsHand h q (blocks ++ brought_by end) }
{}

/// And it goes through an allocation or a free that is made step by step.
pub fn hands_go_through_steps()
    ensures begun { (h : HeapFields) (p q : Pass) (blocks : List Block) (call : Call) → IsOf h p → Holds p blocks → IsOf h q
        → All (λ block. LeavesPlace call block.place) blocks → IsTried call → IsCalling p call 0 q → IsHand h q blocks }
    ensures stepped { (h : HeapFields) (p q : Pass) (blocks : List Block) (told : Stepped Block) → IsHand h p blocks → IsBusy p.errand → IsOf h q
        → HasStepped p q told → IsHand h q (blocks ++ brought_in told) }
{}
