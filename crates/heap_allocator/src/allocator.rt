//! The allocator.

ghost use Rattle.std.specs.Prelude.{◌≡◌, ◌<◌, ◌≤◌, ◌*◌, List, [], Ok, IfOk, IfSome};
ghost use Rattle.std.specs.Result.{IfErr};
ghost use Rattle.std.specs.Allocator.{block_with_items, resized_if_ok, FitsBlock};
ghost use Rattle.std.specs.Mem.{type_size};
ghost use types.Logic.{sem};
ghost use Rattle.errand_steps.specs.Begins.{IsIdle};
ghost use Rattle.live_heap.specs.Holdings.{HoldsExactly};
ghost use Rattle.live_heap.specs.Passes.{IsOf};
ghost use Rattle.heap_allocator.specs.Desks.{IsDeskOf};
ghost use Rattle.heap_allocator.specs.Pieces.{AreOfOnePiece, piece_token};

use crate::desk::Desk;
use crate::mover::{Mover, are_of_one_piece};
use crate::slot::Slot;
use live_heap::heap::Heap;
use live_heap::pass::Pass;
use memory_cache::paged::PagedCache;
use std::alloc::{AllocError, Allocator, Global};
use std::mem::size_of;

/// An allocator over a pass of a heap, for collections of the thread that has it.
pub struct HeapAllocator<'h> {
    heap: &'h Heap,
    caller: u32,
    mover: Mover<'h>,
    ghost same: { (mover.heap.now ≡ heap.now) × (mover.slot ≡ record { heap = heap.now; caller = caller }) },
}

/// There was no memory; the pass comes back.
#[derive(Drop)]
pub struct Refused {
    pub pass: Pass,
}

impl<'h> HeapAllocator<'h> {
    /// An allocator over a pass that holds no blocks. Of pages whose pieces are all back it keeps so many, and one that is
    /// ready of each size; a call of the heap has so many tries. All memory but for the table of pages is taken here.
    pub fn new(
        alloc: Global,
        heap: &'h Heap,
        pass: Pass,
        depth: u16,
        tries: u32,
    ) -> Result<HeapAllocator<'h>, Refused>
        requires of { IsOf heap.now pass }
        requires idle { IsIdle pass.errand }
        requires holds { HoldsExactly pass [] }
        requires tries { 0 < tries }
        ensures heap { IfOk result (λ allocator. allocator.heap.now ≡ heap.now) }
        ensures caller { IfOk result (λ allocator. allocator.caller ≡ pass.errand.caller) }
        ensures refused { IfErr result (λ refused. refused.pass ≡ pass) }
    {
        let caller = pass.caller();
        let desk = Desk { cache: None, tries };
        let Ok(mut desk) = Box::new(alloc, desk) else {
            return Err(Refused { pass });
        };
        match PagedCache::open(alloc, pass, depth) {
            Ok(cache) => {
                desk.cache = Some(cache);
                let slot = Slot::new(heap, caller, Some(desk));
                let mover = Mover { heap, slot };
                Ok(HeapAllocator {
                    heap,
                    caller,
                    mover,
                })
            }
            Err(refused) => Err(Refused { pass: refused.pass }),
        }
    }

    /// The heap in which it gives memory.
    pub fn heap(&self) -> &'h Heap
        ensures { result.now ≡ self.now.heap.now }
    {
        self.heap
    }

    /// Frees what the pages and the magazines have, and gives the pass back where nothing is out. Else, or where a call of the heap is
    /// under way that doesn't end within the tries, the allocator stays.
    pub fn close(self) -> Result<Pass, HeapAllocator<'h>>
        ensures of { IfOk result (λ pass. IsOf self.entry.heap.now pass × IsIdle pass.errand) }
        ensures nothing { IfOk result (λ pass. HoldsExactly pass [] × (pass.out ≡ 0)) }
        ensures caller { IfOk result (λ pass. pass.errand.caller ≡ self.entry.caller) }
        ensures same { IfErr result (λ allocator. (allocator.heap.now ≡ self.entry.heap.now) × (allocator.caller ≡ self.entry.caller)) }
    {
        let HeapAllocator {
            heap,
            caller,
            mover,
        } = self;
        let mut desk = mover.into_slot().into_inner();
        match closed(heap, caller, &mut desk) {
            Some(pass) => Ok(pass),
            None => {
                let slot = Slot::new(heap, caller, desk);
                let mover = Mover { heap, slot };
                Err(HeapAllocator {
                    heap,
                    caller,
                    mover,
                })
            }
        }
    }
}

unsafe impl<'h> Allocator for HeapAllocator<'h> {
    ghost dealloc_token = { λ a. piece_token a.mover.heap.now.region.at };

    fn allocate(&self, size: usize, align: usize) -> Result<*mut u8, AllocError> {
        self.mover.allocate(size, align)
    }

    unsafe fn deallocate(&self, ptr: *mut u8, size: usize, align: usize) {
        self.mover.deallocate(ptr, size, align);
    }

    /// The values stay where they are in a piece that serves both sizes; else they move.
    unsafe fn grow<T>(
        &self,
        ptr: *mut T,
        len: usize,
        old_cap: usize,
        new_cap: usize,
    ) -> Result<*mut T, AllocError>
        ghost items: { List T }
        requires sizes { (len ≤ old_cap) × (old_cap ≤ new_cap) × FitsBlock T.row new_cap }
        requires* block { sem 𝓛 (block_with_items (piece_token self.now.mover.heap.now.region.at) T.row ptr len old_cap items) }
        ensures in_place { AreOfOnePiece (old_cap * type_size T.row) (new_cap * type_size T.row) → result ≡ Ok ptr }
        ensures* memory { sem 𝓛 (resized_if_ok (piece_token self.now.mover.heap.now.region.at) T.row ptr len old_cap new_cap items result) }
    {
        if are_of_one_piece(old_cap * size_of::<T>(), new_cap * size_of::<T>()) {
            Ok(ptr)
        } else {
            unsafe { self.mover.grow(ptr, len, old_cap, new_cap) }
        }
    }

    /// The same, to fewer values.
    unsafe fn shrink<T>(
        &self,
        ptr: *mut T,
        len: usize,
        old_cap: usize,
        new_cap: usize,
    ) -> Result<*mut T, AllocError>
        ghost items: { List T }
        requires sizes { (len ≤ new_cap) × (new_cap ≤ old_cap) × FitsBlock T.row old_cap }
        requires* block { sem 𝓛 (block_with_items (piece_token self.now.mover.heap.now.region.at) T.row ptr len old_cap items) }
        ensures in_place { AreOfOnePiece (old_cap * type_size T.row) (new_cap * type_size T.row) → result ≡ Ok ptr }
        ensures* memory { sem 𝓛 (resized_if_ok (piece_token self.now.mover.heap.now.region.at) T.row ptr len old_cap new_cap items result) }
    {
        if are_of_one_piece(old_cap * size_of::<T>(), new_cap * size_of::<T>()) {
            Ok(ptr)
        } else {
            unsafe { self.mover.shrink(ptr, len, old_cap, new_cap) }
        }
    }
}

impl<'h> Drop for HeapAllocator<'h> {
    /// The pass is lost, and what it has out stays out.
    fn drop(self) {
        let HeapAllocator {
            heap: _,
            caller: _,
            mover,
        } = self;
        drop(mover);
    }
}

/// The pass of a desk, where there is one and it can be closed.
fn closed(heap: &Heap, _caller: u32, desk: &mut Option<Box<Desk>>) -> Option<Pass>
    requires desk { IfSome desk.old (λ desk. IsDeskOf (record { heap = heap.now; caller = _caller }) desk.value) }
    ensures desk { IfSome desk.new (λ desk. IsDeskOf (record { heap = heap.now; caller = _caller }) desk.value) }
    ensures caller { IfSome result (λ pass. pass.errand.caller ≡ _caller) }
    ensures closed { IfSome result (λ pass. IsOf heap.now pass × IsIdle pass.errand × HoldsExactly pass [] × (pass.out ≡ 0)) }
{
    match desk {
        Some(desk) => desk.close(heap),
        None => None,
    }
}
