//! The magazines of a cache.

ghost use Rattle.std.specs.Prelude.{◌≡◌, ◌<◌, ◌≤◌, ◌∷◌, [], IfOk, IfSome, None, length};
ghost use Rattle.heap_geometry.specs.declared.limits.TheConstants.{CLASSES};
ghost use Rattle.heap_geometry.specs.declared.need.Need.TheVariants.{Small};
ghost use Rattle.block_cache.specs.Magazines.{AreForClasses, HasOnTop, Splits, all_in, leaving, stack_at, stacks_of};

use heap_geometry::limits::CLASSES;
use live_heap::block::Block;
use live_heap::plain::Memory;
use std::alloc::{AllocError, Global};

/// What a magazine keeps.
pub trait Kept: Drop {
    ghost use Rattle.heap_geometry.specs.declared.need.Need.{Need};

    /// What it serves.
    ghost need_of: { Self → Need };
}

impl Kept for Block {
    ghost need_of = { λ block. block.need };
}

impl Kept for Memory {
    ghost need_of = { λ memory. memory.block.need };
}

/// For each class a stack of what is kept, with room for as many as the depth says.
#[derive(Drop)]
pub struct Magazines<T> {
    pub(crate) stacks: Vec<Vec<T>>,
    pub(crate) depth: u16,
}

impl<T: Kept> Magazines<T> {
    /// Empty magazines with room for so many each. All memory is taken here.
    pub fn new(alloc: Global, depth: u16) -> Result<Magazines<T>, AllocError>
        ensures ready { IfOk result (λ m. AreForClasses T.need_of m.depth m.stacks.items) }
        ensures empty { IfOk result (λ m. all_in (stacks_of m.stacks.items) ≡ []) }
        ensures depth { IfOk result (λ m. m.depth ≡ depth) }
    {
        let mut stacks = Vec::with_capacity(alloc, CLASSES as usize)?;
        for _class in 0..CLASSES {
            stacks.push_reserved(Vec::with_capacity(alloc, depth as usize)?);
        }
        Ok(Magazines { stacks, depth })
    }

    /// How many each magazine has room for.
    #[inline(always)]
    pub fn depth(&self) -> usize
        ensures { result ≡ self.now.depth }
    {
        self.depth as usize
    }

    /// How many the magazine of a class keeps.
    #[inline(always)]
    pub fn count(&self, class: u8) -> usize
        requires class { class < CLASSES }
        requires ready { AreForClasses T.need_of self.now.depth self.now.stacks.items }
        ensures count { result ≡ length (stack_at (stacks_of self.now.stacks.items) class) }
        ensures within { result ≤ self.now.depth }
    {
        self.stacks[class as usize].len()
    }

    /// Takes the last one out of the magazine of a class.
    #[inline(always)]
    pub fn pop(&mut self, class: u8) -> T
        requires class { class < CLASSES }
        requires ready { AreForClasses T.need_of self.old.depth self.old.stacks.items }
        requires some { 0 < length (stack_at (stacks_of self.old.stacks.items) class) }
        ensures ready { AreForClasses T.need_of self.old.depth self.new.stacks.items }
        ensures depth { self.new.depth ≡ self.old.depth }
        ensures need { T.need_of result ≡ Small class }
        ensures top { HasOnTop class result (stacks_of self.old.stacks.items) (stacks_of self.new.stacks.items) }
        ensures splits { Splits result (all_in (stacks_of self.old.stacks.items)) (all_in (stacks_of self.new.stacks.items)) }
    {
        let Some(kept) = self.stacks[class as usize].pop() else {
            unreachable!()
        };
        kept
    }

    /// Lays one on top of the magazine of its class.
    #[inline(always)]
    pub fn push(&mut self, class: u8, kept: T)
        requires class { class < CLASSES }
        requires need { T.need_of kept ≡ Small class }
        requires ready { AreForClasses T.need_of self.old.depth self.old.stacks.items }
        requires room { length (stack_at (stacks_of self.old.stacks.items) class) < self.old.depth }
        ensures ready { AreForClasses T.need_of self.old.depth self.new.stacks.items }
        ensures depth { self.new.depth ≡ self.old.depth }
        ensures top { HasOnTop class kept (stacks_of self.new.stacks.items) (stacks_of self.old.stacks.items) }
        ensures splits { Splits kept (all_in (stacks_of self.new.stacks.items)) (all_in (stacks_of self.old.stacks.items)) }
    {
        self.stacks[class as usize].push_reserved(kept);
    }

    /// Takes out the one that leaves first when all magazines are emptied; none where all are empty.
    pub fn pop_first(&mut self) -> Option<T>
        requires ready { AreForClasses T.need_of self.old.depth self.old.stacks.items }
        ensures ready { AreForClasses T.need_of self.old.depth self.new.stacks.items }
        ensures depth { self.new.depth ≡ self.old.depth }
        ensures first { IfSome result (λ kept.
            leaving (stacks_of self.old.stacks.items) ≡ kept ∷ leaving (stacks_of self.new.stacks.items)) }
        ensures splits { IfSome result (λ kept.
            Splits kept (all_in (stacks_of self.old.stacks.items)) (all_in (stacks_of self.new.stacks.items))) }
        ensures none { result ≡ None → (leaving (stacks_of self.old.stacks.items) ≡ []) × (self.new ≡ self.old) }
    {
        for class in 0..CLASSES {
            if self.count(class) > 0 {
                return Some(self.pop(class));
            }
        }
        None
    }
}
