//! Laws of the heap: theorems about the definitions, on functions that do nothing.

pub mod blocks;
pub mod by_steps;
pub mod hands;
pub mod words;

ghost use Rattle.std.specs.Prelude.{ℕ, ◌≡◌, ◌≢◌, ◌<◌, ◌≤◌, ◌+◌, ◌-◌, ◌*◌, ◌^◌, List, ◌++◌, Some, length, count_by};
ghost use Rattle.heap_geometry.specs.declared.need.Need.{Need};
ghost use Rattle.heap_geometry.specs.declared.need.Need.TheVariants.{Small, Large};
ghost use Rattle.heap_geometry.specs.Need.{need_of};
ghost use Rattle.pool_model.specs.Legal.{IsLegal};
ghost use Rattle.errand_steps.specs.declared.reply.Reply.{Reply};
ghost use Rattle.errand_steps.specs.declared.reply.Reply.TheVariants as reply;
ghost use Rattle.errand_steps.specs.Calls.{Call, alloc, free};
ghost use Rattle.errand_steps.specs.Errands.{ErrandFields};
ghost use Rattle.sound_laws.specs.bounds.Contention.{lost_of, won_of};
ghost use Rattle.sound_state.specs.Sound.{IsSound};
ghost use Rattle.sound_state.specs.Sums.{callers_sum};
ghost use Rattle.sound_state.specs.Turns.{gives_small, refuses_small};
ghost use Rattle.step_machine.specs.Cores.{OwnsAfter, errand_at, state_of};
ghost use Rattle.step_machine.specs.Keeping.{Hands, LeavesPlace};
ghost use Rattle.step_machine.specs.Moments.{IsServed};
ghost use Rattle.live_heap.specs.declared.answers.FreeAnswer.TheVariants as free_answer;
ghost use Rattle.live_heap.specs.declared.answers.Resumed.TheVariants as resumed;
ghost use Rattle.live_heap.specs.declared.answers.Taken.TheVariants as taken;
ghost use Rattle.live_heap.specs.declared.block.Block.{Block};
ghost use Rattle.live_heap.specs.Heaps.{HeapFields};
ghost use Rattle.live_heap.specs.declared.pass.Pass.{Pass};
ghost use Rattle.live_heap.specs.Answers.{FreeTells, ResumeTells, TakeTells};
ghost use Rattle.live_heap.specs.Calls.{HasCalled, IsCalling, IsInterrupted};
ghost use Rattle.live_heap.specs.Endings.{ClosedFields, IsResting, machine_of};
ghost use Rattle.live_heap.specs.Passes.{IsOf, Owns, seen};
ghost use Rattle.live_heap.specs.Refusals.{HasFoundNoFrame, HasFoundNoRun};
ghost use Rattle.live_heap.specs.SeenSteps.{steps_of};
ghost use Rattle.live_heap.specs.Whole.{IsWhole};

/// What is so of every pass, whatever calls it has made: the events that it has seen are legal, and
/// bound its turns from both sides, whether its errand is the one that its last step left or a call has
/// begun since. With one caller nothing is ever lost.
pub fn passes_are_served()
    ensures served { (h : HeapFields) (p : Pass) → IsOf h p → IsServed h.layout p.errand.caller p.errand (seen p) }
    ensures alone { (h : HeapFields) (p : Pass) → IsOf h p → h.layout.callers ≡ 1 → p.errand.lost ≡ 0 }
{}

/// A pass keeps the blocks that it owns through each of its calls, but for the one that a free or a put
/// is about; and a block that it is given or takes is none of those that it has.
pub fn passes_keep_their_blocks()
    ensures called { (h : HeapFields) (p q : Pass) (call : Call) (steps : ℕ) (answer : Reply) (block : Block) → IsOf h p → IsOf h q
        → HasCalled p call steps answer q → LeavesPlace call block.place → Owns p block → Owns q block }
    ensures calling { (h : HeapFields) (p q : Pass) (call : Call) (steps : ℕ) (block : Block) → IsOf h p → IsOf h q
        → IsCalling p call steps q → LeavesPlace call block.place → Owns p block → Owns q block }
    ensures given { (h : HeapFields) (p q : Pass) (call : Call) (steps place : ℕ) (need : Need) (block : Block) → IsOf h p → IsOf h q
        → HasCalled p call steps (reply.Given place need) q → Owns p block → block.place ≢ place }
    ensures got { (h : HeapFields) (p q : Pass) (call : Call) (steps place : ℕ) (need : Need) (block : Block) → IsOf h p → IsOf h q
        → HasCalled p call steps (reply.Got place need) q → Owns p block → block.place ≢ place }
{}

/// What a whole call leaves and hands out, however often it was interrupted: the pass keeps the blocks
/// that it owns, but for the one that a free or a put is about; a block that it is given or takes is its
/// own and none of those that it had, and one that it is given serves what was asked for.
pub fn whole_calls_keep_blocks()
    ensures keeps { (h k : HeapFields) (p q : Pass) (call : Call) (answer : Reply) (place : ℕ) (need : Need) → IsWhole h p call answer k q
        → LeavesPlace call place → OwnsAfter (seen p) p.errand.caller place need → OwnsAfter (seen q) q.errand.caller place need }
    ensures hands { (h k : HeapFields) (p q : Pass) (call : Call) (answer : Reply) (place : ℕ) (need : Need) → IsWhole h p call answer k q
        → Hands answer place need → OwnsAfter (seen q) q.errand.caller place need }
    ensures apart { (h k : HeapFields) (p q : Pass) (call : Call) (answer : Reply) (place other : ℕ) (need had : Need) → IsWhole h p call answer k q
        → Hands answer place need → OwnsAfter (seen p) p.errand.caller other had → other ≢ place }
    ensures serves { (h k : HeapFields) (p q : Pass) (words place : ℕ) (need : Need) → IsWhole h p (alloc words) (reply.Given place need) k q
        → need ≡ need_of words }
{}

/// Why an allocation is refused. For a small need one of the call's steps found the class's list empty, a
/// later one of them found no frame left, and its event is the refusal; for a large one the step that ended
/// the call found no run of so many units free.
pub fn refusals_have_their_cause()
    ensures small { (first q : Pass) (words class steps : ℕ) → need_of words ≡ Small class
        → (called : HasCalled first (alloc words) steps reply.Refused q)
        → HasFoundNoFrame first words class (steps_of first (alloc words) steps reply.Refused q called) }
    ensures large { (first q : Pass) (words units steps : ℕ) → need_of words ≡ Large units
        → HasCalled first (alloc words) steps reply.Refused q → HasFoundNoRun first words units q }
{}

/// A closed heap is a sound state of the machine, in which all callers are idle: so all that is said of
/// such states holds of it. The exchanges that its callers lost are at most those that they won, times
/// the other callers; and each caller was given and refused together no more small blocks than it took
/// turns.
pub fn closed_heaps_are_sound()
    ensures sound { (c : ClosedFields) (rests : IsResting c) → IsSound c.geometry (state_of (machine_of c rests.steps)) }
    ensures legal { (c : ClosedFields) → IsResting c → IsLegal c.geometry c.events }
    ensures losses { (c : ClosedFields) → IsResting c
        → callers_sum c.geometry lost_of (errand_at c.errands) ≤ (c.geometry.callers - 1) * length c.wins }
    ensures contended { (c : ClosedFields) → IsResting c
        → ((caller : ℕ) → caller < c.geometry.callers → (errand_at c.errands caller).won < 2 ^ 64 - 1)
        → callers_sum c.geometry lost_of (errand_at c.errands)
        ≤ (c.geometry.callers - 1) * callers_sum c.geometry won_of (errand_at c.errands) }
    ensures answers { (c : ClosedFields) (caller : ℕ) → IsResting c → caller < c.geometry.callers
        → count_by (gives_small caller) c.events + count_by (refuses_small caller) c.events ≤ (errand_at c.errands caller).turns }
{}

/// In a heap of one caller no exchange is ever lost: a free is never interrupted, neither as it begins nor
/// as it is resumed; a take never misses; and an allocation is interrupted only by the empty superblocks
/// that it cleared, as many as it had tries.
pub fn one_caller_loses_nothing()
    ensures free { (h : HeapFields) (p q : Pass) (block : Block) (tries : ℕ) → IsOf h q → h.layout.callers ≡ 1 → 0 < tries
        → ¬ FreeTells p block tries free_answer.Busy q }
    ensures resumed { (h : HeapFields) (first p q : Pass) (place : ℕ) (need : Need) (made tries : ℕ) → IsOf h q → h.layout.callers ≡ 1
        → 0 < tries → IsCalling first (free place need) made p
        → ¬ ResumeTells first (free place need) made p tries resumed.Busy q }
    ensures take { (h : HeapFields) (p q : Pass) (shelf expected found : ℕ) → IsOf h q → h.layout.callers ≡ 1
        → ¬ TakeTells p shelf (taken.Missed expected found) q }
    ensures alloc { (h : HeapFields) (first p q : Pass) (words made tries : ℕ) → IsOf h p → IsOf h q → h.layout.callers ≡ 1
        → IsInterrupted first (alloc words) made p tries q → q.errand.cleared ≡ p.errand.cleared + tries }
{}
