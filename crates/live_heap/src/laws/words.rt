//! The law of the words in a caller's blocks.

ghost use Rattle.std.specs.Prelude.{ℕ, ◌≡◌, Some};
ghost use Rattle.heap_geometry.specs.declared.need.Need.{Need};
ghost use Rattle.errand_steps.specs.declared.reply.Reply.{Reply};
ghost use Rattle.errand_steps.specs.declared.reply.Reply.TheVariants as reply;
ghost use Rattle.errand_steps.specs.Calls.{Call, read, take, write};
ghost use Rattle.live_heap.specs.Heaps.{HeapFields};
ghost use Rattle.live_heap.specs.declared.pass.Pass.{Pass};
ghost use Rattle.live_heap.specs.Answers.{IsContents};
ghost use Rattle.live_heap.specs.Calls.{HasCalled, IsCalling};
ghost use Rattle.live_heap.specs.Contents.{LeavesWord, word_in};
ghost use Rattle.live_heap.specs.Passes.{IsOf, seen};
ghost use Rattle.live_heap.specs.Shelves.{AlwaysByRule, MayLieOn};

use crate::shelves::ShelfRule;

/// A word that a pass has written is in its block until the pass writes it again or gives the block away,
/// whatever calls it makes and whatever others do; and a read of it finds just that.
pub fn written_words_stay()
    ensures wrote { (h : HeapFields) (p q : Pass) (place : ℕ) (need : Need) (i v steps : ℕ) → IsOf h q
        → HasCalled p (write place need i v) steps reply.Wrote q → word_in q place i ≡ Some v }
    ensures called { (h : HeapFields) (p q : Pass) (call : Call) (steps : ℕ) (answer : Reply) (place i v : ℕ) → IsOf h q
        → HasCalled p call steps answer q → LeavesWord call place i → word_in p place i ≡ Some v → word_in q place i ≡ Some v }
    ensures calling { (h : HeapFields) (p q : Pass) (call : Call) (steps place i v : ℕ) → IsOf h q → IsCalling p call steps q
        → LeavesWord call place i → word_in p place i ≡ Some v → word_in q place i ≡ Some v }
    ensures read { (h : HeapFields) (p q : Pass) (place : ℕ) (need : Need) (i steps word v : ℕ) → IsOf h q
        → HasCalled p (read place need i) steps (reply.Word word) q → IsContents q place i word → word_in p place i ≡ Some v → word ≡ v }
{}

/// A block that was taken by steps has words that may lie on its shelf by the heap's rule; of a whole take `words` says it.
pub fn taken_words_keep_the_rule<R: ShelfRule>()
    ensures { (h : HeapFields) (p q : Pass) (shelf steps place : ℕ) (need : Need) → IsOf h q
        → HasCalled p (take shelf) steps (reply.Got place need) q → AlwaysByRule R.allows (seen q)
        → MayLieOn R.allows (seen q) q.errand.caller place shelf }
{}
