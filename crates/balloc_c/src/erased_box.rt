//! A box behind a pointer that names no type, or nothing.

ghost use Rattle.std.specs.Prelude.{◌≡◌, Option, Some, None};
ghost use Rattle.std.specs.Coded.{coded_option};
ghost use Rattle.balloc_c.specs.contracts.hand.Hand.{the_row};
ghost use Rattle.balloc_c.specs.declared.hand.Hand.{Hand};
ghost use Rattle.balloc_c.specs.Owned.{pass_owns};

use crate::hand::Hand;
use crate::parts::Parts;
use std::alloc::Global;
use std::marker::Model;

/// A pass behind a pointer, or nothing.
#[repr(C)]
pub struct ErasedBox {
    at: *mut u8,
    alloc: Global,
    pub ghost hand: { Option Hand } by { coded_option the_row.coded },
}

impl Model for ErasedBox {
    ghost also_owns = { λ h. pass_owns h.hand h.alloc h.at };
}

impl ErasedBox {
    ghost use Rattle.std.specs.Borrow.{sem};
    ghost use Rattle.balloc_c.specs.Lent.{LendsErasedBox};

    /// Nothing.
    pub fn none(alloc: Global) -> ErasedBox
        ensures { result.hand ≡ None }
    {
        ErasedBox {
            at: std::ptr::null_mut(),
            alloc,
        }
    }

    /// The pass of a box.
    pub fn of_parts(parts: Parts<Hand, Global>) -> ErasedBox
        ensures { result.hand ≡ Some parts.value }
    {
        let Parts { ptr, alloc } = parts;
        ErasedBox {
            at: ptr as *mut u8,
            alloc,
        }
    }

    /// The box of its pass.
    pub fn into_parts(self) -> Parts<Hand, Global>
        requires { (hand : Hand) × (self.hand ≡ Some hand) }
        ensures { self.hand ≡ Some result.value }
    {
        let ErasedBox { at, alloc } = self;
        Parts {
            ptr: at as *mut Hand,
            alloc,
        }
    }

    /// Its pass, where that lies.
    pub fn hand(&mut self) -> &mut Hand
        requires { (hand : Hand) × (self.old.hand ≡ Some hand) }
        ensures* writes_back { sem 𝓛 (LendsErasedBox self.entry result) }
        ensures value { self.old.hand ≡ Some result.now }
    {
        unsafe { &mut *(self.at as *mut Hand) }
    }

    /// Lets nothing go.
    pub fn forget(self)
        requires { self.hand ≡ None }
    {
        let ErasedBox { at: _, alloc: _ } = self;
    }
}

// A box of a pass may go to another thread, as the pass may.
unsafe impl Send for ErasedBox {}
