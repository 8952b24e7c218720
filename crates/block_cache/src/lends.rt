//! How the usable words of a block that a cache's caller holds go out, as plain memory, and come home.

ghost use Rattle.std.specs.Prelude.{◌≡◌, ◌≢◌, ◌%◌};
ghost use Rattle.plain_words.specs.Places.{numbers};
ghost use Rattle.errand_steps.specs.Begins.{IsIdle};
ghost use Rattle.sound_laws.specs.events.Made.{LeadsBy};
ghost use Rattle.live_heap.specs.declared.block.Block.{Block};
ghost use Rattle.live_heap.specs.declared.plain.Memory.{Memory};
ghost use Rattle.live_heap.specs.Memory.{HasTaken, IsLastTaken, IsMemoryOf, before_taking, writes_from};
ghost use Rattle.live_heap.specs.Passes.{Owns, view};
ghost use Rattle.live_heap.specs.Words.{CallsOnWord};
ghost use Rattle.block_cache.specs.Caches.{HoldsBlock, IsCache, KeepsMagazines};

use crate::cache::Cache;
use live_heap::block::Block;
use live_heap::heap::Heap;
use live_heap::plain::Memory;

impl Cache {
    /// Takes the usable words of a block that the caller holds out, as `take_out` of the heap does. The block is freed or
    /// put once they are home again.
    pub fn take_out(&mut self, heap: &Heap, block: Block) -> Memory
        requires cache { IsCache heap.now self.old }
        requires idle { IsIdle self.old.pass.errand }
        requires held { HoldsBlock self.old block }
        ensures cache { IsCache heap.now self.new }
        ensures idle { IsIdle self.new.pass.errand }
        ensures memory { IsMemoryOf heap.now result }
        ensures block { result.block ≡ block }
        ensures aligned { result.words.first % 2 ≡ 1 }
        ensures last { IsLastTaken self.new.pass result (numbers result.words.places) (view self.old.pass).lent }
        ensures taken { HasTaken self.new.pass result }
        ensures before { before_taking self.new.pass block.place ≡ self.old.pass }
        ensures others { (other : Memory) → HasTaken self.old.pass other → HasTaken self.new.pass other }
        ensures owns { (other : Block) → Owns self.old.pass other → other.place ≢ block.place → Owns self.new.pass other }
        ensures keeps { KeepsMagazines self.old self.new }
    {
        heap.take_out(&mut self.pass, block)
    }

    /// Gives the usable words of a block back that are out with the pass: each is written with the number that is in it.
    /// The caller holds the block as before.
    pub fn bring_home(&mut self, heap: &Heap, memory: Memory) -> Block
        requires cache { IsCache heap.now self.old }
        requires idle { IsIdle self.old.pass.errand }
        requires memory { IsMemoryOf heap.now memory }
        requires taken { HasTaken self.old.pass memory }
        ensures cache { IsCache heap.now self.new }
        ensures idle { IsIdle self.new.pass.errand }
        ensures block { result ≡ memory.block }
        ensures owned { Owns self.new.pass result }
        ensures wrote { LeadsBy (CallsOnWord heap.now) (before_taking self.old.pass memory.block.place)
            (writes_from memory.block.place memory.block.need 0 (numbers memory.words.places)) self.new.pass }
        ensures others { (other : Memory) → HasTaken self.old.pass other → other.block.place ≢ memory.block.place → HasTaken self.new.pass other }
        ensures owns { (other : Block) → Owns self.old.pass other → Owns self.new.pass other }
        ensures keeps { KeepsMagazines self.old self.new }
    {
        heap.bring_home(&mut self.pass, memory)
    }
}
