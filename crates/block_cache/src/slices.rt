//! Whole calls on words side by side of a block that a cache's caller holds: they are read into a slice, or written with
//! what is in it.

ghost use Rattle.std.specs.Prelude.{◌≡◌, ◌≤◌, ◌+◌, List, length};
ghost use Rattle.heap_geometry.specs.Need.{usable_words};
ghost use Rattle.errand_steps.specs.Begins.{IsIdle};
ghost use Rattle.sound_laws.specs.events.Made.{LeadsBy, found_from};
ghost use Rattle.live_heap.specs.declared.block.Block.{Block};
ghost use Rattle.live_heap.specs.Memory.{writes_from};
ghost use Rattle.live_heap.specs.Words.{CallsOnWord};
ghost use Rattle.block_cache.specs.Caches.{Holds, HoldsBlock, IsCache, KeepsMagazines};

use crate::cache::Cache;
use live_heap::block::Block;
use live_heap::heap::Heap;

impl Cache {
    /// Reads words of a block that the caller holds, from word `first` on, into a slice, as many as it has, in their order.
    /// Each is what the block's owners last wrote there; a word that none has written is some number.
    pub fn read_slice(&mut self, heap: &Heap, block: &Block, first: u32, into: &mut [u64])
        requires cache { IsCache heap.now self.old }
        requires idle { IsIdle self.old.pass.errand }
        requires held { HoldsBlock self.old block.now }
        requires words { first + length into.old ≤ usable_words block.now.need }
        ensures cache { IsCache heap.now self.new }
        ensures idle { IsIdle self.new.pass.errand }
        ensures long { length into.new ≡ length into.old }
        ensures found { LeadsBy (CallsOnWord heap.now) self.old.pass (found_from block.now.place block.now.need first into.new) self.new.pass }
        ensures keeps { KeepsMagazines self.old self.new }
        ensures holds { (held : List Block) → Holds self.old held → Holds self.new held }
    {
        heap.read_slice(&mut self.pass, block, first, into);
    }

    /// Writes words of a block that the caller holds, from word `first` on, with those of a slice, in their order.
    pub fn write_slice(&mut self, heap: &Heap, block: &Block, first: u32, from: &[u64])
        requires cache { IsCache heap.now self.old }
        requires idle { IsIdle self.old.pass.errand }
        requires held { HoldsBlock self.old block.now }
        requires words { first + length from.now ≤ usable_words block.now.need }
        ensures cache { IsCache heap.now self.new }
        ensures idle { IsIdle self.new.pass.errand }
        ensures wrote { LeadsBy (CallsOnWord heap.now) self.old.pass (writes_from block.now.place block.now.need first from.now) self.new.pass }
        ensures keeps { KeepsMagazines self.old self.new }
        ensures holds { (held : List Block) → Holds self.old held → Holds self.new held }
    {
        heap.write_slice(&mut self.pass, block, first, from);
    }
}
