//! Laws of what calls show, and of what they make of a caller's blocks.

ghost use Rattle.std.specs.Prelude.{ℕ, ◌≡◌, ◌≤◌, ◌↔◌, List, [], ◌∷◌, ◌++◌, Some};
ghost use Rattle.heap_geometry.specs.declared.need.Need.{Need};
ghost use Rattle.heap_geometry.specs.Need.{usable_words};
ghost use Rattle.pool_model.specs.declared.event.Event.{Event};
ghost use Rattle.pool_model.specs.Histories.{Begins, EndsWith};
ghost use Rattle.errand_steps.specs.declared.reply.Progress.{Progress};
ghost use Rattle.errand_steps.specs.declared.reply.Reply.{Reply};
ghost use Rattle.errand_steps.specs.declared.reply.Reply.TheVariants as reply;
ghost use Rattle.errand_steps.specs.Calls.{Call, alloc};
ghost use Rattle.errand_steps.specs.Errands.{ErrandFields};
ghost use Rattle.errand_steps.specs.Steps.{event_at};
ghost use Rattle.sound_laws.specs.events.Stages.{stage_of};
ghost use Rattle.step_machine.specs.Moments.{IsMoment};
ghost use Rattle.live_heap.specs.declared.block.Block.{Block};
ghost use Rattle.live_heap.specs.Heaps.{HeapFields};
ghost use Rattle.live_heap.specs.declared.pass.Pass.{Pass};
ghost use Rattle.live_heap.specs.Calls.{HasCalled, IsCalling};
ghost use Rattle.live_heap.specs.Contents.{HasChanged, HasChangedSoFar, owned_after, owned_in, tells_last};
ghost use Rattle.live_heap.specs.Endings.{ClosedFields, HasTakenIn, IsResting};
ghost use Rattle.live_heap.specs.Holdings.{ChangesHand, ChangesHandSoFar, HoldsExactly};
ghost use Rattle.live_heap.specs.Passes.{IsFresh, IsOf, seen};
ghost use Rattle.live_heap.specs.Whole.{IsWhole};

/// What a pass has seen stays seen, and is what it sees first, behind each step and each call. Where a
/// step has an event, that is the last one seen behind it; a write, a put, and a take that gets a block or
/// finds none have theirs at their last step.
pub fn passes_see_more()
    ensures stepped { (e f : ErrandFields) (before after : List Event) (answer : Progress) → IsMoment e f before after answer → Begins before after }
    ensures called { (p q : Pass) (call : Call) (steps : ℕ) (answer : Reply) → HasCalled p call steps answer q → Begins (seen p) (seen q) }
    ensures calling { (p q : Pass) (call : Call) (steps : ℕ) → IsCalling p call steps q → Begins (seen p) (seen q) }
    ensures last_of_step { (e f : ErrandFields) (before after : List Event) (answer : Progress) (m : IsMoment e f before after answer)
        (event : Event) → event_at m.state e.caller ≡ Some event → EndsWith after event }
    ensures last { (p q : Pass) (call : Call) (steps : ℕ) (answer : Reply) (event : Event) → HasCalled p call steps answer q
        → tells_last p.errand.caller call answer ≡ Some event → EndsWith (seen q) event }
{}

/// A call changes the one block that it is about, and leaves each other block of its caller's with each of
/// its words, whatever other callers do in the meantime; no other block comes to it, or is lost. A closed
/// heap has just what each pass owned.
pub fn calls_change_their_block()
    ensures called { (h : HeapFields) (p q : Pass) (call : Call) (steps : ℕ) (answer : Reply) → IsOf h q → HasCalled p call steps answer q
        → HasChanged p call answer q }
    ensures whole { (h k : HeapFields) (p q : Pass) (call : Call) (answer : Reply) → IsWhole h p call answer k q → HasChanged p call answer q }
    ensures calling { (h : HeapFields) (p q : Pass) (call : Call) (steps : ℕ) → IsOf h q → IsCalling p call steps q
        → HasChangedSoFar p call (stage_of q.errand.point) q }
    ensures closed { (c : ClosedFields) (p : Pass) (place : ℕ) → IsResting c → HasTakenIn c p
        → owned_after c.events p.errand.caller place ≡ owned_in p place }
{}

/// The blocks in a pass's hand are all that its caller owns, each once: nothing at first, and then what each
/// call makes of it, one that is under way too; and then the words of no block are out. Their order means nothing.
pub fn passes_hold_exactly()
    ensures fresh { (h : HeapFields) (p : Pass) → IsFresh h p → HoldsExactly p [] }
    ensures called { (h : HeapFields) (p q : Pass) (call : Call) (steps : ℕ) (answer : Reply) (had has : List Block) → IsOf h p → IsOf h q
        → HasCalled p call steps answer q → ChangesHand call answer had has → HoldsExactly p had → HoldsExactly q has }
    ensures whole { (h k : HeapFields) (p q : Pass) (call : Call) (answer : Reply) (had has : List Block) → IsOf h p
        → IsWhole h p call answer k q → ChangesHand call answer had has → HoldsExactly p had → HoldsExactly q has }
    ensures calling { (h : HeapFields) (p q : Pass) (call : Call) (steps : ℕ) (had has : List Block) → IsOf h p → IsOf h q
        → IsCalling p call steps q
        → ChangesHandSoFar call (stage_of q.errand.point) had has → HoldsExactly p had → HoldsExactly q has }
    ensures home { (h : HeapFields) (p : Pass) (blocks : List Block) → IsOf h p → HoldsExactly p blocks → p.out ≡ 0 }
    ensures order { (p : Pass) (before after : List Block) (block : Block)
        → HoldsExactly p (before ++ block ∷ after) ↔ HoldsExactly p (block ∷ before ++ after) }
{}

/// A block that is given has at least as many usable words as were asked for.
pub fn given_blocks_have_enough_words()
    ensures { (p q : Pass) (words steps place : ℕ) (need : Need) → HasCalled p (alloc words) steps (reply.Given place need) q
        → words ≤ usable_words need }
{}
