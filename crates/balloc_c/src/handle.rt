//! The handle that C holds.

ghost use Rattle.std.specs.Prelude.{◌≡◌, Option, Some, None, is_some, option_map};

use crate::erased_box::ErasedBox;
use crate::hand::Hand;
use crate::parts::Parts;
use std::alloc::Global;

/// A pass, or nothing, on a cache line of its own. C holds it, and never copies it; all bytes zero are
/// nothing.
#[repr(C)]
pub struct PassHandle {
    live: bool,
    held: ErasedBox,
    /// What fills the cache line.
    rest: [u64; 6],
    ghost is_live: { live ≡ is_some held.hand },
}

impl PassHandle {
    ghost use Rattle.std.specs.Borrow.{sem};
    ghost use Rattle.balloc_c.specs.Lent.{LendsHand};

    /// Whether it holds a pass.
    pub fn live(&self) -> bool
        ensures { result ≡ is_some self.now.held.hand }
    {
        self.live
    }

    /// Its pass, where that lies, if it holds one.
    pub fn hand(&mut self) -> Option<&mut Hand>
        ensures* writes_back { sem 𝓛 (LendsHand self.entry result) }
        ensures value { self.old.held.hand ≡ option_map (λ hand. hand.now) result }
    {
        if self.live {
            Some(self.held.hand())
        } else {
            None
        }
    }

    /// Takes the pass out, where there is one.
    pub fn take(&mut self, alloc: Global) -> Option<Box<Hand>>
        ensures empty { self.new.held.hand ≡ None }
        ensures value { self.old.held.hand ≡ option_map (λ hand. hand.value) result }
    {
        if self.live {
            self.live = false;
            let held = std::mem::replace(&mut self.held, ErasedBox::none(alloc));
            Some(held.into_parts().into_box())
        } else {
            None
        }
    }

    /// Puts a pass in, where there is none.
    pub fn give(&mut self, hand: Box<Hand>)
        requires empty { self.old.held.hand ≡ None }
        ensures { self.new.held.hand ≡ Some hand.value }
    {
        self.live = true;
        let held = std::mem::replace(&mut self.held, ErasedBox::of_parts(Parts::of(hand)));
        held.forget();
    }
}

/// What may go to another thread.
fn crosses<T: Send>() {}

/// A handle may go to another thread: C may let threads take over each other's passes.
pub fn handles_cross() {
    crosses::<PassHandle>();
}
