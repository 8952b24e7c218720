//! What empties the magazines of a cache.

ghost use Rattle.std.specs.Prelude.{ℕ, ◌≡◌, ◌<◌, ◌≤◌, ◌∷◌, List, [], None, IfSome};
ghost use Rattle.errand_steps.specs.Begins.{IsIdle};
ghost use Rattle.live_heap.specs.declared.answers.FreeAnswer.TheVariants as freed;
ghost use Rattle.live_heap.specs.declared.block.Block.{Block};
ghost use Rattle.live_heap.specs.Answers.{FreeTells};
ghost use Rattle.block_cache.specs.Caches.{Holds, IsCache, cached_in, stacks_in};
ghost use Rattle.block_cache.specs.Flushes.{FlushTells};
ghost use Rattle.block_cache.specs.Magazines.{leaving};

use crate::cache::Cache;
use live_heap::answers::FreeAnswer;
use live_heap::block::Block;
use live_heap::heap::Heap;

impl Cache {
    /// Empties all magazines by frees of the heap, each with so many tries: that of the first class first,
    /// and the last block of each first. Where a free is interrupted the blocks behind it stay.
    pub fn flush(&mut self, heap: &Heap, tries: u32) -> FreeAnswer
        requires cache { IsCache heap.now self.old }
        requires idle { IsIdle self.old.pass.errand }
        requires tries { 0 < tries }
        ensures cache { IsCache heap.now self.new }
        ensures depth { self.new.magazines.depth ≡ self.old.magazines.depth }
        ensures hits { self.new.hits ≡ self.old.hits }
        ensures empty { result ≡ FreeAnswer.Freed → cached_in self.new ≡ [] }
        ensures tells { FlushTells heap.now self.old tries result self.new }
        ensures holds { (held : List Block) → Holds self.old held → Holds self.new held }
    {
        while let Some(answer) = self.free_next(heap, tries) {
            if let FreeAnswer::Busy = answer {
                return FreeAnswer::Busy;
            }
        }
        FreeAnswer::Freed
    }

    /// Frees the next block of the magazines; none is left where it answers none.
    fn free_next(&mut self, heap: &Heap, tries: u32) -> Option<FreeAnswer>
        requires cache { IsCache heap.now self.old }
        requires idle { IsIdle self.old.pass.errand }
        requires tries { 0 < tries }
        ensures cache { IsCache heap.now self.new }
        ensures depth { self.new.magazines.depth ≡ self.old.magazines.depth }
        ensures hits { self.new.hits ≡ self.old.hits }
        ensures none { result ≡ None → (leaving (stacks_in self.old) ≡ []) × (self.new ≡ self.old) }
        ensures next { IfSome result (λ answer. (block : Block) × (leaving (stacks_in self.old) ≡ block ∷ leaving (stacks_in self.new))
            × FreeTells self.old.pass block tries answer self.new.pass) }
        ensures holds { (held : List Block) → Holds self.old held → Holds self.new held }
    {
        let block = self.magazines.pop_first()?;
        Some(heap.free(&mut self.pass, block, tries))
    }
}
