//! A cell that holds a desk, or nothing while a call has it.

ghost use Rattle.std.specs.Prelude.{◌≡◌, IfSome};
ghost use Rattle.heap_allocator.specs.Cells.{kept_behind, kept_val};
ghost use Rattle.heap_allocator.specs.Desks.{IsDeskOf, Owner};

use crate::desk::Desk;
use live_heap::heap::Heap;
use std::marker::{Move, Owns};

/// A cell of one thread. A contract sees of it whose desk it holds.
pub(crate) struct Slot {
    desk: Option<Box<Desk>>,
}

impl Owns for Slot {
    ghost Value = { Owner };

    ghost shr_at = { λ o. kept_behind Fields (λ i. IfSome i.desk (λ desk. IsDeskOf o desk.value)) };
}

impl Move for Slot {
    ghost own_val = { λ o. kept_val Fields (λ i. IfSome i.desk (λ desk. IsDeskOf o desk.value)) };
}

impl Slot {
    /// A cell that holds this desk, of a cache of the heap whose pass is the caller's.
    pub(crate) fn new(_heap: &Heap, _caller: u32, desk: Option<Box<Desk>>) -> Slot
        requires { IfSome desk (λ desk. IsDeskOf (record { heap = _heap.now; caller = _caller }) desk.value) }
        ensures { result ≡ record { heap = _heap.now; caller = _caller } }
    {
        Slot { desk }
    }

    /// Puts a desk in, or none, and gives what was there.
    pub(crate) fn replace(&self, desk: Option<Box<Desk>>) -> Option<Box<Desk>>
        requires { IfSome desk (λ desk. IsDeskOf self.now desk.value) }
        ensures { IfSome result (λ desk. IsDeskOf self.now desk.value) }
    {
        let place = &raw const self.desk as *mut Option<Box<Desk>>;
        unsafe {
            let before = place.read();
            place.write(desk);
            before
        }
    }

    /// What it holds.
    pub(crate) fn into_inner(self) -> Option<Box<Desk>>
        ensures { IfSome result (λ desk. IsDeskOf self desk.value) }
    {
        let Slot { desk } = self;
        desk
    }
}
