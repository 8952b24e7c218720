//! A cache: a pass with magazines.

ghost use Rattle.std.specs.Prelude.{ℕ, ◌≡◌, ◌<◌, ◌≤◌, ◌↔◌, ◌++◌, ◌∷◌, List, [], Ok, IfOk, length};
ghost use Rattle.std.specs.Result.{IfErr};
ghost use Rattle.heap_geometry.specs.Need.{need_of, usable_words};
ghost use Rattle.heap_geometry.specs.declared.limits.TheConstants.{CLASSES, LARGE_MOST, SHELVES};
ghost use Rattle.heap_geometry.specs.declared.need.Need.TheVariants.{Small};
ghost use Rattle.pool_model.specs.Histories.{Begins};
ghost use Rattle.errand_steps.specs.declared.reply.Begun.TheVariants as begun;
ghost use Rattle.errand_steps.specs.declared.reply.Reply.TheVariants as reply;
ghost use Rattle.errand_steps.specs.Begins.{IsBusy, IsIdle, alloc_answer};
ghost use Rattle.errand_steps.specs.Calls.{Call, put, read, write};
ghost use Rattle.errand_steps.specs.Points.{is_idle};
ghost use Rattle.sound_laws.specs.events.Made.{Copies, LeadsBy, Sums, wrote};
ghost use Rattle.live_heap.specs.declared.block.Block.{Block};
ghost use Rattle.live_heap.specs.Heaps.{HeapFields};
ghost use Rattle.live_heap.specs.declared.pass.Pass.{Pass};
ghost use Rattle.live_heap.specs.Answers.{AllocTells, FreeTells, IsContents, PutTellsFull, ResumeTells, TakeTells};
ghost use Rattle.live_heap.specs.Calls.{HasCalled, IsCalling};
ghost use Rattle.live_heap.specs.Hands.{given_by, resumed_by, returned_by, taken_by};
ghost use Rattle.live_heap.specs.Passes.{IsOf, seen};
ghost use Rattle.live_heap.specs.Words.{CallsOnWord};
ghost use Rattle.block_cache.specs.Caches.{HasFor, HasKept, HasRoom, HasServed, Holds, HoldsBlock, IsCache, KeepsMagazines, cached_in, magazine_in};

use crate::magazines::Magazines;
use heap_geometry::need::{Need, class_of};
use live_heap::answers::{AllocAnswer, FreeAnswer, Full, Resumed, Taken};
use live_heap::block::Block;
use live_heap::heap::Heap;
use live_heap::pass::Pass;
use std::alloc::Global;

/// A pass with a magazine for each class: blocks that its caller has freed and that it keeps, the last
/// one on top, to give them again. They stay the pass's; the heap knows nothing of it.
#[derive(Drop)]
pub struct Cache {
    pub(crate) pass: Pass,
    pub(crate) magazines: Magazines<Block>,
    pub(crate) hits: u64,
}

/// There was no memory; the pass comes back.
#[derive(Drop)]
pub struct CacheRefused {
    pub pass: Pass,
}

impl Cache {
    /// A cache in front of the pass, with empty magazines for so many blocks each, at most 64: with 0 none keeps a
    /// block, and each call is the heap's. All memory is taken here. The caller holds all blocks that it owns.
    pub fn open(alloc: Global, pass: Pass, depth: u8) -> Result<Cache, CacheRefused>
        requires idle { IsIdle pass.errand }
        requires few { depth ≤ 64 }
        ensures cache { IfOk result (λ cache. (h : HeapFields) → IsOf h pass → IsCache h cache) }
        ensures pass { IfOk result (λ cache. cache.pass ≡ pass) }
        ensures empty { IfOk result (λ cache. cached_in cache ≡ []) }
        ensures depth { IfOk result (λ cache. cache.magazines.depth ≡ depth) }
        ensures hits { IfOk result (λ cache. cache.hits ≡ 0) }
        ensures refused { IfErr result (λ refused. refused.pass ≡ pass) }
    {
        let Ok(magazines) = Magazines::new(alloc, depth as u16) else {
            return Err(CacheRefused { pass });
        };
        Ok(Cache {
            pass,
            magazines,
            hits: 0,
        })
    }

    /// An allocation of so many usable words. Where the magazine for them has a block it is given that,
    /// the last one, without a step; else it is the heap's.
    #[inline(always)]
    pub fn alloc(&mut self, heap: &Heap, need: u32, tries: u32) -> AllocAnswer
        requires cache { IsCache heap.now self.old }
        requires idle { IsIdle self.old.pass.errand }
        requires tries { 0 < tries }
        ensures cache { IsCache heap.now self.new }
        ensures depth { self.new.magazines.depth ≡ self.old.magazines.depth }
        ensures served { HasFor self.old (need_of need)
            → (block : Block) × (result ≡ AllocAnswer.Given block) × HasServed self.old need block self.new }
        ensures asked { (¬ HasFor self.old (need_of need))
            → AllocTells self.old.pass need tries result self.new.pass × KeepsMagazines self.old self.new }
        ensures too_large { (result ≡ AllocAnswer.TooLarge) ↔ (LARGE_MOST < need) }
        ensures spent { (¬ HasFor self.old (need_of need)) → alloc_answer self.old.pass.errand need ≡ begun.Spent
            → result ≡ AllocAnswer.Spent }
        ensures holds { (held : List Block) → Holds self.old held → Holds self.new (given_by result ++ held) }
    {
        if let Need::Small(class) = class_of(need) {
            if self.magazines.count(class) > 0 {
                return AllocAnswer::Given(self.serve(class));
            }
        }
        heap.alloc(&mut self.pass, need, tries)
    }

    /// The last block of a magazine, which counts as a hit.
    #[inline(always)]
    fn serve(&mut self, class: u8) -> Block
        requires class { class < CLASSES }
        requires some { 0 < length (magazine_in self.old class) }
        requires cached { (h : HeapFields) × IsCache h self.old }
        requires idle { IsIdle self.old.pass.errand }
        ensures cache { (h : HeapFields) → IsCache h self.old → IsCache h self.new }
        ensures depth { self.new.magazines.depth ≡ self.old.magazines.depth }
        ensures served { (words : ℕ) → need_of words ≡ Small class → HasServed self.old words result self.new }
        ensures holds { (held : List Block) → Holds self.old held → Holds self.new (result ∷ held) }
    {
        self.hits = self.hits.saturating_add(1);
        self.magazines.pop(class)
    }

    /// Frees a block that the caller holds. Where the magazine of its class has room the block is kept
    /// there, without a step; else the free is the heap's.
    #[inline]
    pub fn free(&mut self, heap: &Heap, block: Block, tries: u32) -> FreeAnswer
        requires cache { IsCache heap.now self.old }
        requires idle { IsIdle self.old.pass.errand }
        requires held { HoldsBlock self.old block }
        requires tries { 0 < tries }
        ensures cache { IsCache heap.now self.new }
        ensures depth { self.new.magazines.depth ≡ self.old.magazines.depth }
        ensures kept { HasRoom self.old block.need → (result ≡ FreeAnswer.Freed) × HasKept self.old block self.new }
        ensures asked { (¬ HasRoom self.old block.need)
            → FreeTells self.old.pass block tries result self.new.pass × KeepsMagazines self.old self.new }
        ensures holds { (held : List Block) → Holds self.old (block ∷ held) → Holds self.new held }
    {
        if let Need::Small(class) = block.need() {
            if self.magazines.count(class) < self.magazines.depth() {
                self.keep(class, block);
                return FreeAnswer::Freed;
            }
        }
        heap.free(&mut self.pass, block, tries)
    }

    /// Lays a block on its magazine.
    #[inline(always)]
    fn keep(&mut self, class: u8, block: Block)
        requires class { class < CLASSES }
        requires need { block.need ≡ Small class }
        requires room { length (magazine_in self.old class) < self.old.magazines.depth }
        requires cached { (h : HeapFields) × IsCache h self.old }
        requires idle { IsIdle self.old.pass.errand }
        requires held { HoldsBlock self.old block }
        ensures cache { (h : HeapFields) → IsCache h self.old → IsCache h self.new }
        ensures depth { self.new.magazines.depth ≡ self.old.magazines.depth }
        ensures kept { HasKept self.old block self.new }
        ensures holds { (held : List Block) → Holds self.old (block ∷ held) → Holds self.new held }
    {
        self.magazines.push(class, block);
    }

    /// Goes on with an allocation or a free of the heap that was interrupted, one of a flush too.
    pub fn resume(&mut self, heap: &Heap, tries: u32) -> Resumed
        requires cache { IsCache heap.now self.old }
        requires under_way { IsBusy self.old.pass.errand }
        requires tries { 0 < tries }
        ensures cache { IsCache heap.now self.new }
        ensures grows { Begins (seen self.old.pass) (seen self.new.pass) }
        ensures tells { (first : Pass) (call : Call) (made : ℕ) → IsOf heap.now first → IsCalling first call made self.old.pass
            → ResumeTells first call made self.old.pass tries result self.new.pass }
        ensures keeps { KeepsMagazines self.old self.new }
        ensures holds { (held : List Block) → Holds self.old held → Holds self.new (resumed_by result ++ held) }
    {
        heap.resume(&mut self.pass, tries)
    }

    /// Writes a usable word of a block that the caller holds; `i` counts them from 0.
    pub fn write(&mut self, heap: &Heap, block: &Block, i: u32, v: u64)
        requires cache { IsCache heap.now self.old }
        requires idle { IsIdle self.old.pass.errand }
        requires held { HoldsBlock self.old block.now }
        requires word { i < usable_words block.now.need }
        ensures cache { IsCache heap.now self.new }
        ensures called { HasCalled self.old.pass (write block.now.place block.now.need i v) 0 reply.Wrote self.new.pass }
        ensures keeps { KeepsMagazines self.old self.new }
        ensures holds { (held : List Block) → Holds self.old held → Holds self.new held }
    {
        heap.write(&mut self.pass, block, i, v);
    }

    /// Reads a usable word of a block that the caller holds; `i` counts them from 0. A word that its owners
    /// have not written since the block was given is some number.
    pub fn read(&mut self, heap: &Heap, block: &Block, i: u32) -> u64
        requires cache { IsCache heap.now self.old }
        requires idle { IsIdle self.old.pass.errand }
        requires held { HoldsBlock self.old block.now }
        requires word { i < usable_words block.now.need }
        ensures cache { IsCache heap.now self.new }
        ensures called { HasCalled self.old.pass (read block.now.place block.now.need i) 0 (reply.Word result) self.new.pass }
        ensures contents { IsContents self.new.pass block.now.place i result }
        ensures keeps { KeepsMagazines self.old self.new }
        ensures holds { (held : List Block) → Holds self.old held → Holds self.new held }
    {
        heap.read(&mut self.pass, block, i)
    }

    /// Fills a block that the caller holds, as plain memory: word i with from + i, modulo 2^64.
    pub fn fill(&mut self, heap: &Heap, block: &Block, from: u64)
        requires cache { IsCache heap.now self.old }
        requires idle { IsIdle self.old.pass.errand }
        requires held { HoldsBlock self.old block.now }
        ensures cache { IsCache heap.now self.new }
        ensures idle { IsIdle self.new.pass.errand }
        ensures wrote { LeadsBy (CallsOnWord heap.now) self.old.pass
            (wrote block.now.place block.now.need from (usable_words block.now.need)) self.new.pass }
        ensures keeps { KeepsMagazines self.old self.new }
        ensures holds { (held : List Block) → Holds self.old held → Holds self.new held }
    {
        heap.fill(&mut self.pass, block, from);
    }

    /// Copies a block that the caller holds into another one that it holds, the first word first: each word is read
    /// and then written. What the other one has beyond them is filled with 0.
    pub fn copy(&mut self, heap: &Heap, from: &Block, to: &Block)
        requires cache { IsCache heap.now self.old }
        requires idle { IsIdle self.old.pass.errand }
        requires held { HoldsBlock self.old from.now }
        requires held_too { HoldsBlock self.old to.now }
        ensures cache { IsCache heap.now self.new }
        ensures idle { IsIdle self.new.pass.errand }
        ensures copied { Copies (CallsOnWord heap.now) self.old.pass from.now.place from.now.need to.now.place to.now.need self.new.pass }
        ensures keeps { KeepsMagazines self.old self.new }
        ensures holds { (held : List Block) → Holds self.old held → Holds self.new held }
    {
        heap.copy(&mut self.pass, from, to);
    }

    /// The sum of the words of a block that the caller holds, modulo 2^64. A word that its owners have not
    /// written since the block was given is some number.
    pub fn sum(&mut self, heap: &Heap, block: &Block) -> u64
        requires cache { IsCache heap.now self.old }
        requires idle { IsIdle self.old.pass.errand }
        requires held { HoldsBlock self.old block.now }
        ensures cache { IsCache heap.now self.new }
        ensures idle { IsIdle self.new.pass.errand }
        ensures sums { Sums (CallsOnWord heap.now) self.old.pass block.now.place block.now.need result self.new.pass }
        ensures keeps { KeepsMagazines self.old self.new }
        ensures holds { (held : List Block) → Holds self.old held → Holds self.new held }
    {
        heap.sum(&mut self.pass, block)
    }

    /// Puts a block that the caller holds on a shelf, from where any pass may take it.
    pub fn put(&mut self, heap: &Heap, block: Block, shelf: u8) -> Result<(), Full>
        requires cache { IsCache heap.now self.old }
        requires idle { IsIdle self.old.pass.errand }
        requires held { HoldsBlock self.old block }
        requires shelf { shelf < SHELVES }
        ensures cache { IsCache heap.now self.new }
        ensures put { IfOk result (λ _. HasCalled self.old.pass (put block.place block.need shelf) 0 reply.Put self.new.pass) }
        ensures full { IfErr result (λ full. PutTellsFull self.old.pass block shelf full self.new.pass) }
        ensures keeps { KeepsMagazines self.old self.new }
        ensures holds { (held : List Block) → Holds self.old (block ∷ held) → Holds self.new (returned_by result ++ held) }
    {
        heap.put(&mut self.pass, block, shelf)
    }

    /// Takes the block that lies on a shelf.
    pub fn take(&mut self, heap: &Heap, shelf: u8) -> Taken
        requires cache { IsCache heap.now self.old }
        requires idle { IsIdle self.old.pass.errand }
        requires shelf { shelf < SHELVES }
        ensures cache { IsCache heap.now self.new }
        ensures tells { TakeTells self.old.pass shelf result self.new.pass }
        ensures keeps { KeepsMagazines self.old self.new }
        ensures holds { (held : List Block) → Holds self.old held → Holds self.new (taken_by result ++ held) }
    {
        heap.take(&mut self.pass, shelf)
    }

    /// How many blocks the magazine of a class has.
    pub fn cached(&self, class: u8) -> u32
        requires cache { (h : HeapFields) × IsCache h self.now }
        requires class { class < CLASSES }
        ensures { result ≡ length (magazine_in self.now class) }
    {
        self.magazines.count(class) as u32
    }

    /// How many allocations were given from a magazine, at most 2^64 - 1.
    pub fn hits(&self) -> u64
        ensures { result ≡ self.now.hits }
    {
        self.hits
    }

    /// Whether it is in no call.
    pub fn idle(&self) -> bool
        ensures { result ≡ is_idle self.now.pass.errand.point }
    {
        self.pass.idle()
    }

    /// The pass, whose caller owns just the blocks that it held.
    pub fn close(self) -> Pass
        requires idle { IsIdle self.pass.errand }
        requires empty { cached_in self ≡ [] }
        ensures { result ≡ self.pass }
    {
        self.pass
    }

    /// The pass. What its caller held and what lay in magazines stays allocated.
    pub fn leave(self) -> Pass
        ensures { result ≡ self.pass }
    {
        self.pass
    }
}
