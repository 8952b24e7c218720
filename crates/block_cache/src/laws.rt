//! Laws of caches: theorems about the definitions, on functions that do nothing.

ghost use Rattle.std.specs.Prelude.{ℕ, ◌≡◌, ◌≢◌, ◌↔◌, List, [], ◌∷◌, ◌++◌};
ghost use Rattle.heap_geometry.specs.declared.need.Need.{Need};
ghost use Rattle.heap_geometry.specs.Need.{need_of};
ghost use Rattle.errand_steps.specs.declared.reply.Reply.{Reply};
ghost use Rattle.errand_steps.specs.declared.reply.Reply.TheVariants as reply;
ghost use Rattle.errand_steps.specs.Begins.{IsIdle};
ghost use Rattle.errand_steps.specs.Calls.{Call, alloc, free};
ghost use Rattle.sound_laws.specs.events.Made.{Copies, LeadsBy, Sums, wrote};
ghost use Rattle.sound_laws.specs.events.Stages.{stage_of};
ghost use Rattle.step_machine.specs.Keeping.{Hands, LeavesPlace};
ghost use Rattle.live_heap.specs.declared.answers.AllocAnswer.{AllocAnswer};
ghost use Rattle.live_heap.specs.declared.answers.AllocAnswer.TheVariants as answer;
ghost use Rattle.live_heap.specs.declared.answers.FreeAnswer.TheVariants as free_answer;
ghost use Rattle.live_heap.specs.declared.block.Block.{Block};
ghost use Rattle.live_heap.specs.Heaps.{HeapFields};
ghost use Rattle.live_heap.specs.Answers.{AllocTells, FreeTells};
ghost use Rattle.live_heap.specs.Holdings.{HoldsExactly};
ghost use Rattle.live_heap.specs.Passes.{IsOf};
ghost use Rattle.live_heap.specs.Whole.{HasEndedCall};
ghost use Rattle.live_heap.specs.Words.{CallsOnWord};
ghost use Rattle.block_cache.specs.declared.cache.Cache.{Cache};
ghost use Rattle.block_cache.specs.Accounts.{IsAmong, KeepsUnderWay};
ghost use Rattle.block_cache.specs.Caches.{HasFor, HasKept, HasRoom, HasServed, Holds, HoldsBlock, IsCache, KeepsMagazines, cached_in, stacks_in};
ghost use Rattle.block_cache.specs.Flushes.{FlushTells, HasStopped};
ghost use Rattle.block_cache.specs.Hidden.{Shows, ShowsSame};
ghost use Rattle.block_cache.specs.Magazines.{leaving};
ghost use Rattle.block_cache.specs.Whole.{Asks, EndsAs, HoldsAt, IsWholeCall, IsWholeOnWord, RestsAt};

/// The blocks that the caller of a cache holds, those in its magazines and the one that a call under way
/// keeps are together all that it owns, each once. It holds what it owned when the cache was opened; what
/// it holds is one list, whose order means nothing, and a block is held just where it is in the list.
pub fn caches_account_for_all_blocks()
    ensures opened { (c : Cache) (blocks : List Block) → IsIdle c.pass.errand → cached_in c ≡ [] → HoldsExactly c.pass blocks ↔ Holds c blocks }
    ensures together { (h : HeapFields) (c : Cache) (held : List Block) → IsCache h c → Holds c held
        → (kept : List Block) × KeepsUnderWay (stage_of c.pass.errand.point) kept × HoldsExactly c.pass (kept ++ (held ++ cached_in c)) }
    ensures held { (h : HeapFields) (c : Cache) (held : List Block) (block : Block) → IsCache h c → IsIdle c.pass.errand → Holds c held
        → HoldsBlock c block ↔ IsAmong block held }
    ensures order { (c : Cache) (before after : List Block) (block : Block)
        → Holds c (before ++ block ∷ after) ↔ Holds c (block ∷ (before ++ after)) }
{}

/// A call that has ended is a whole call: an allocation or a free that its magazine served, and each that the
/// heap was asked for, with what resumed it.
pub fn ended_calls_are_whole()
    ensures alloc { (h : HeapFields) (c d : Cache) (words tries : ℕ) (told : AllocAnswer Block) (ended : Reply) → RestsAt h c → IsCache h d
        → (HasFor c (need_of words) → (block : Block) × (told ≡ answer.Given block) × HasServed c words block d)
        → ((¬ HasFor c (need_of words)) → AllocTells c.pass words tries told d.pass × KeepsMagazines c d)
        → EndsAs told ended → IsWholeCall h c (alloc words) ended d }
    ensures free { (h : HeapFields) (c d : Cache) (block : Block) (tries : ℕ) → RestsAt h c → IsCache h d → HoldsBlock c block
        → (HasRoom c block.need → HasKept c block d)
        → ((¬ HasRoom c block.need) → FreeTells c.pass block tries free_answer.Freed d.pass × KeepsMagazines c d)
        → IsWholeCall h c (free block.place block.need) reply.Freed d }
    ensures asked { (h : HeapFields) (c d : Cache) (call : Call) (ended : Reply) → RestsAt h c → IsCache h d → Asks c call
        → HasEndedCall c.pass call ended d.pass → KeepsMagazines c d → IsWholeCall h c call ended d }
{}

/// A fill, a sum or a copy of blocks that the caller holds is as many whole calls through the cache, each on a word,
/// which leave the magazines as they are.
pub fn calls_on_words_are_whole()
    ensures fill { (h : HeapFields) (c d : Cache) (place : ℕ) (need : Need) (from count : ℕ) → RestsAt h c → HoldsAt c place need
        → LeadsBy (CallsOnWord h) c.pass (wrote place need from count) d.pass → KeepsMagazines c d
        → LeadsBy (IsWholeOnWord h) c (wrote place need from count) d }
    ensures sum { (h : HeapFields) (c d : Cache) (place : ℕ) (need : Need) (total : ℕ) → RestsAt h c → HoldsAt c place need
        → Sums (CallsOnWord h) c.pass place need total d.pass → KeepsMagazines c d
        → Sums (IsWholeOnWord h) c place need total d }
    ensures copy { (h : HeapFields) (c d : Cache) (from : ℕ) (from_need : Need) (to : ℕ) (to_need : Need) → RestsAt h c
        → HoldsAt c from from_need → HoldsAt c to to_need → Copies (CallsOnWord h) c.pass from from_need to to_need d.pass → KeepsMagazines c d
        → Copies (IsWholeOnWord h) c from from_need to to_need d }
{}

/// What a whole call through a cache leaves and hands out: its caller holds what it held, but for the block
/// that a free or a put is about; a block that it is given or takes is held and none of those that were, and
/// one that it is given serves what was asked for.
pub fn whole_calls_keep_blocks()
    ensures keeps { (h : HeapFields) (c d : Cache) (call : Call) (ended : Reply) (place : ℕ) (need : Need) → IsWholeCall h c call ended d
        → LeavesPlace call place → HoldsAt c place need → HoldsAt d place need }
    ensures hands { (h : HeapFields) (c d : Cache) (call : Call) (ended : Reply) (place : ℕ) (need : Need) → IsWholeCall h c call ended d
        → Hands ended place need → HoldsAt d place need }
    ensures apart { (h : HeapFields) (c d : Cache) (call : Call) (ended : Reply) (place other : ℕ) (need had : Need) → IsWholeCall h c call ended d
        → Hands ended place need → HoldsAt c other had → other ≢ place }
    ensures serves { (h : HeapFields) (c d : Cache) (words place : ℕ) (need : Need) → IsWholeCall h c (alloc words) (reply.Given place need) d
        → need ≡ need_of words }
{}

/// What the caller of a cache is to see: an allocation that is given a block adds one, for the need and apart
/// from all others; a free takes its own away, and a flush none, also one that was interrupted and resumed.
pub fn magazines_are_hidden()
    ensures whole { (h : HeapFields) (c d : Cache) (call : Call) (ended : Reply) → IsWholeCall h c call ended d → Shows c call ended d }
    ensures flushed { (h : HeapFields) (c d : Cache) (tries : ℕ) → FlushTells h c tries free_answer.Freed d → ShowsSame c d }
    ensures resumed { (h : HeapFields) (c d e : Cache) (tries : ℕ) → IsOf h e.pass
        → (stopped : HasStopped h c.pass (leaving (stacks_in c)) (leaving (stacks_in d)) tries d.pass)
        → HasEndedCall stopped.next (free stopped.block.place stopped.block.need) reply.Freed e.pass → KeepsMagazines d e → ShowsSame c e }
{}

/// A cache of depth 0 is its pass: no magazine has a block or room for one, so each call is the heap's.
pub fn caches_without_depth_ask_the_heap()
    ensures { (h : HeapFields) (c : Cache) (need : Need) → IsCache h c → c.magazines.depth ≡ 0 → (¬ HasFor c need) × (¬ HasRoom c need) }
{}
