//! A memory cache: a pass with magazines of plain memory.

ghost use Rattle.std.specs.Prelude.{ℕ, ◌≡◌, ◌≢◌, ◌<◌, ◌≤◌, ◌↔◌, ◌%◌, [], true, false, IfOk, length};
ghost use Rattle.std.specs.Result.{IfErr};
ghost use Rattle.heap_geometry.specs.Need.{need_of, usable_words};
ghost use Rattle.heap_geometry.specs.declared.limits.TheConstants.{CLASSES, LARGE_MOST};
ghost use Rattle.heap_geometry.specs.declared.need.Need.TheVariants.{Small};
ghost use Rattle.errand_steps.specs.Begins.{IsBusy, IsIdle};
ghost use Rattle.live_heap.specs.Heaps.{HeapFields};
ghost use Rattle.live_heap.specs.declared.plain.Memory.{Memory};
ghost use Rattle.live_heap.specs.Holdings.{HoldsExactly};
ghost use Rattle.live_heap.specs.Passes.{IsOf};
ghost use Rattle.memory_cache.specs.Asking.{HasSettled, LiesElsewhere, SendsHome, TakeTells};
ghost use Rattle.memory_cache.specs.Caches.{HasFor, HasKept, HasRoom, HasServed, IsCache, IsHeld, KeepsMagazines, StaysOpen, kept_in, magazine_in};
ghost use Rattle.memory_cache.specs.Rooms.{IsRoomOf};
ghost use Rattle.memory_cache.specs.Settled.{IsSettled};

use crate::passes::{ask, send_home, settle};
use block_cache::cache::CacheRefused;
use block_cache::magazines::Magazines;
use heap_geometry::need::{Need, class_of};
use live_heap::answers::AllocAnswer;
use live_heap::heap::Heap;
use live_heap::pass::Pass;
use live_heap::plain::Memory;
use std::alloc::Global;

/// A pass with a magazine for each class: memory of its blocks, whose words are out, that its caller has given
/// back and that it keeps to give again. The words of all blocks of the pass are out, but for the one that a
/// call under way is about.
#[derive(Drop)]
pub struct MemoryCache {
    pub(crate) pass: Pass,
    pub(crate) magazines: Magazines<Memory>,
    pub(crate) hits: u64,
}

impl MemoryCache {
    /// A cache in front of the pass, with empty magazines for so many pieces each: with 0 none keeps any. All memory
    /// for them is taken here. A pass that holds no blocks is settled.
    pub fn open(alloc: Global, pass: Pass, depth: u16) -> Result<MemoryCache, CacheRefused>
        ensures cache { IfOk result (λ cache. (h : HeapFields) → IsSettled h pass → IsCache h cache) }
        ensures pass { IfOk result (λ cache. cache.pass ≡ pass) }
        ensures empty { IfOk result (λ cache. kept_in cache ≡ []) }
        ensures depth { IfOk result (λ cache. cache.magazines.depth ≡ depth) }
        ensures hits { IfOk result (λ cache. cache.hits ≡ 0) }
        ensures refused { IfErr result (λ refused. refused.pass ≡ pass) }
    {
        let Ok(magazines) = Magazines::new(alloc, depth) else {
            return Err(CacheRefused { pass });
        };
        Ok(MemoryCache {
            pass,
            magazines,
            hits: 0,
        })
    }

    /// Memory of at least so many words; some of them may never have been written. Where the magazine for them has
    /// a piece it is that, the last one, without a step; else a block is allocated for it. Where it is Busy a later
    /// `take`, `give` or `close` goes on.
    #[inline(always)]
    pub fn take(&mut self, heap: &Heap, words: u32, tries: u32) -> AllocAnswer<Memory>
        requires cache { IsCache heap.now self.old }
        requires tries { 0 < tries }
        ensures cache { IsCache heap.now self.new }
        ensures depth { self.new.magazines.depth ≡ self.old.magazines.depth }
        ensures caller { self.new.pass.errand.caller ≡ self.old.pass.errand.caller }
        ensures given { (memory : Memory) → result ≡ AllocAnswer.Given memory
            → IsRoomOf heap.now memory × IsHeld self.new memory × (memory.block.need ≡ need_of words)
            × (words ≤ usable_words memory.block.need) }
        ensures aligned { (memory : Memory) → result ≡ AllocAnswer.Given memory → memory.words.first % 2 ≡ 1 }
        ensures apart { (memory other : Memory) → result ≡ AllocAnswer.Given memory → IsHeld self.old other
            → other.block.place ≢ memory.block.place }
        ensures keeps { (other : Memory) → IsHeld self.old other → IsHeld self.new other }
        ensures only { (other : Memory) → IsHeld self.new other → LiesElsewhere result other → IsHeld self.old other }
        ensures served { HasFor self.old (need_of words)
            → (memory : Memory) × (result ≡ AllocAnswer.Given memory) × HasServed self.old words memory self.new }
        ensures asked { (¬ HasFor self.old (need_of words)) → words ≤ LARGE_MOST
            → TakeTells heap.now self.old.pass words tries result self.new.pass × KeepsMagazines self.old self.new }
        ensures too_large { (result ≡ AllocAnswer.TooLarge) ↔ (LARGE_MOST < words) }
        ensures nothing { LARGE_MOST < words → self.new ≡ self.old }
    {
        match class_of(words) {
            Need::TooLarge => AllocAnswer::TooLarge,
            Need::Small(class) if self.magazines.count(class) > 0 => {
                AllocAnswer::Given(self.serve(class))
            }
            _ => ask(heap, &mut self.pass, words, tries),
        }
    }

    /// The last piece of a magazine, which counts as a hit.
    #[inline(always)]
    fn serve(&mut self, class: u8) -> Memory
        requires class { class < CLASSES }
        requires some { 0 < length (magazine_in self.old class) }
        requires cached { (h : HeapFields) × IsCache h self.old }
        ensures cache { (h : HeapFields) → IsCache h self.old → IsCache h self.new × IsRoomOf h result }
        ensures depth { self.new.magazines.depth ≡ self.old.magazines.depth }
        ensures pass { self.new.pass ≡ self.old.pass }
        ensures held { IsHeld self.new result }
        ensures apart { (other : Memory) → IsHeld self.old other → other.block.place ≢ result.block.place }
        ensures keeps { (other : Memory) → IsHeld self.old other → IsHeld self.new other }
        ensures only { (other : Memory) → IsHeld self.new other → other.block.place ≢ result.block.place → IsHeld self.old other }
        ensures served { (words : ℕ) → need_of words ≡ Small class → HasServed self.old words result self.new }
    {
        self.hits = self.hits.saturating_add(1);
        self.magazines.pop(class)
    }

    /// Takes memory back that the caller holds. Where the magazine of its class has room it is kept there, without
    /// a step; else its block is freed. It comes back where a call is under way that doesn't end within the tries.
    #[inline(always)]
    pub fn give(&mut self, heap: &Heap, memory: Memory, tries: u32) -> Result<(), Memory>
        requires cache { IsCache heap.now self.old }
        requires room { IsRoomOf heap.now memory }
        requires held { IsHeld self.old memory }
        requires tries { 0 < tries }
        ensures cache { IsCache heap.now self.new }
        ensures depth { self.new.magazines.depth ≡ self.old.magazines.depth }
        ensures caller { self.new.pass.errand.caller ≡ self.old.pass.errand.caller }
        ensures keeps { (other : Memory) → IsHeld self.old other → other.block.place ≢ memory.block.place → IsHeld self.new other }
        ensures only { (other : Memory) → IsHeld self.new other
            → IsHeld self.old other × IfOk result (λ _. other.block.place ≢ memory.block.place) }
        ensures kept { HasRoom self.old memory.block.need → IfErr result (λ _. ⊥) × HasKept self.old memory self.new }
        ensures sent { (¬ HasRoom self.old memory.block.need)
            → IfOk result (λ _. SendsHome heap.now self.old.pass memory tries self.new.pass) × KeepsMagazines self.old self.new }
        ensures back { IfErr result (λ back. (back ≡ memory) × IsHeld self.new back × IsBusy self.new.pass.errand) }
        ensures cause { IfErr result (λ _. IsBusy self.old.pass.errand × HasSettled heap.now self.old.pass tries false self.new.pass) }
    {
        if let Need::Small(class) = memory.need() {
            if self.magazines.count(class) < self.magazines.depth() {
                self.keep(class, memory);
                return Ok(());
            }
        }
        self.send(heap, memory, tries)
    }

    /// Lays memory on its magazine.
    #[inline(always)]
    fn keep(&mut self, class: u8, memory: Memory)
        requires class { class < CLASSES }
        requires need { memory.block.need ≡ Small class }
        requires room { length (magazine_in self.old class) < self.old.magazines.depth }
        requires cached { (h : HeapFields) × IsCache h self.old }
        requires held { IsHeld self.old memory }
        ensures cache { (h : HeapFields) → IsCache h self.old → IsRoomOf h memory → IsCache h self.new }
        ensures depth { self.new.magazines.depth ≡ self.old.magazines.depth }
        ensures pass { self.new.pass ≡ self.old.pass }
        ensures keeps { (other : Memory) → IsHeld self.old other → other.block.place ≢ memory.block.place → IsHeld self.new other }
        ensures only { (other : Memory) → IsHeld self.new other → IsHeld self.old other × (other.block.place ≢ memory.block.place) }
        ensures kept { HasKept self.old memory self.new }
    {
        self.magazines.push(class, memory);
    }

    /// Frees the block of memory that the caller holds.
    fn send(&mut self, heap: &Heap, memory: Memory, tries: u32) -> Result<(), Memory>
        requires cache { IsCache heap.now self.old }
        requires room { IsRoomOf heap.now memory }
        requires held { IsHeld self.old memory }
        requires tries { 0 < tries }
        ensures cache { IsCache heap.now self.new }
        ensures caller { self.new.pass.errand.caller ≡ self.old.pass.errand.caller }
        ensures keeps { (other : Memory) → IsHeld self.old other → other.block.place ≢ memory.block.place → IsHeld self.new other }
        ensures only { (other : Memory) → IsHeld self.new other
            → IsHeld self.old other × IfOk result (λ _. other.block.place ≢ memory.block.place) }
        ensures sent { IfOk result (λ _. SendsHome heap.now self.old.pass memory tries self.new.pass) }
        ensures magazines { KeepsMagazines self.old self.new }
        ensures back { IfErr result (λ back. (back ≡ memory) × IsHeld self.new back × IsBusy self.new.pass.errand) }
        ensures cause { IfErr result (λ _. IsBusy self.old.pass.errand × HasSettled heap.now self.old.pass tries false self.new.pass) }
    {
        if !settle(heap, &mut self.pass, tries) {
            return Err(memory);
        }
        send_home(heap, &mut self.pass, memory, tries);
        Ok(())
    }

    /// Frees what the magazines have. The pass comes back where nothing is out with it any more; else the cache,
    /// whose magazines are empty where no call is under way.
    pub fn close(mut self, heap: &Heap, tries: u32) -> Result<Pass, MemoryCache>
        requires cache { IsCache heap.now self }
        requires tries { 0 < tries }
        ensures of { IfOk result (λ pass. IsOf heap.now pass × IsIdle pass.errand) }
        ensures nothing { IfOk result (λ pass. HoldsExactly pass [] × (pass.out ≡ 0)) }
        ensures caller { IfOk result (λ pass. pass.errand.caller ≡ self.pass.errand.caller) }
        ensures cache { IfErr result (λ cache. IsCache heap.now cache) }
        ensures caller_still { IfErr result (λ cache. cache.pass.errand.caller ≡ self.pass.errand.caller) }
        ensures keeps { IfErr result (λ cache. (other : Memory) → IsHeld self other → IsHeld cache other) }
        ensures only { IfErr result (λ cache. (other : Memory) → IsHeld cache other → IsHeld self other) }
        ensures hits { IfErr result (λ cache. cache.hits ≡ self.hits) }
        ensures cause { IfErr result (λ cache. StaysOpen cache) }
    {
        if self.empty(heap, tries) && self.pass.out() == 0 {
            Ok(self.pass)
        } else {
            Err(self)
        }
    }

    /// Frees what the magazines have, one piece after the other. Whether they are empty, and no call is under way.
    fn empty(&mut self, heap: &Heap, tries: u32) -> bool
        requires cache { IsCache heap.now self.old }
        requires tries { 0 < tries }
        ensures cache { IsCache heap.now self.new }
        ensures caller { self.new.pass.errand.caller ≡ self.old.pass.errand.caller }
        ensures keeps { (other : Memory) → IsHeld self.old other → IsHeld self.new other }
        ensures only { (other : Memory) → IsHeld self.new other → IsHeld self.old other }
        ensures hits { self.new.hits ≡ self.old.hits }
        ensures emptied { result ≡ true → (kept_in self.new ≡ []) × IsIdle self.new.pass.errand }
        ensures stopped { result ≡ false → IsBusy self.new.pass.errand }
    {
        while settle(heap, &mut self.pass, tries) {
            let Some(piece) = self.magazines.pop_first() else {
                return true;
            };
            send_home(heap, &mut self.pass, piece, tries);
        }
        false
    }

    /// Goes on with the call that was interrupted, where one was. Whether none is under way now.
    pub(crate) fn settled(&mut self, heap: &Heap, tries: u32) -> bool
        requires cache { IsCache heap.now self.old }
        requires tries { 0 < tries }
        ensures cache { IsCache heap.now self.new }
        ensures caller { self.new.pass.errand.caller ≡ self.old.pass.errand.caller }
        ensures keeps { (other : Memory) → IsHeld self.old other → IsHeld self.new other }
        ensures only { (other : Memory) → IsHeld self.new other → IsHeld self.old other }
        ensures same { KeepsMagazines self.old self.new }
        ensures tells { HasSettled heap.now self.old.pass tries result self.new.pass }
        ensures idle { result ≡ true → IsIdle self.new.pass.errand }
        ensures busy { result ≡ false → IsBusy self.new.pass.errand }
    {
        settle(heap, &mut self.pass, tries)
    }

    /// How many takes a magazine has served, at most 2^64 - 1.
    pub fn hits(&self) -> u64
        ensures { result ≡ self.now.hits }
    {
        self.hits
    }

    /// How many exchanges the pass has lost, at most 2^64 - 1.
    pub fn lost(&self) -> u64
        ensures { result ≡ self.now.pass.errand.lost }
    {
        self.pass.lost()
    }

    /// How many blocks' words are out with the pass, those in magazines too.
    pub fn out(&self) -> u32
        ensures { result ≡ self.now.pass.out }
    {
        self.pass.out()
    }
}
