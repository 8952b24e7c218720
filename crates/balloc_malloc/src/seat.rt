//! The seat that C has for each thread.

ghost use Rattle.std.specs.Prelude.{◌≡◌, Option, Some, None, is_some, option_map};

use crate::erased_box::ErasedBox;
use crate::parts::Parts;
use crate::tenant::Tenant;
use std::alloc::Global;

/// A tenant, or nothing, on a cache line of its own. C has it, and never copies it; all bytes zero are nothing.
#[repr(C)]
pub struct ThreadSeat {
    live: bool,
    held: ErasedBox,
    /// What fills the cache line.
    rest: [u64; 6],
    ghost is_live: { live ≡ is_some held.tenant },
}

impl ThreadSeat {
    ghost use Rattle.std.specs.Borrow.{sem};
    ghost use Rattle.balloc_malloc.specs.Lent.{LendsKnown, LendsTenant};

    /// Whether it has a tenant.
    pub fn live(&self) -> bool
        ensures { result ≡ is_some self.now.held.tenant }
    {
        self.live
    }

    /// Its tenant, where that lies, if it has one.
    pub fn tenant(&mut self) -> Option<&mut Tenant>
        ensures* writes_back { sem 𝓛 (LendsTenant self.entry result) }
        ensures value { self.old.held.tenant ≡ option_map (λ tenant. tenant.now) result }
    {
        if self.live {
            Some(self.held.tenant())
        } else {
            None
        }
    }

    /// Its tenant, where that lies, which it has.
    pub fn known(&mut self) -> &mut Tenant
        requires { (tenant : Tenant) × (self.old.held.tenant ≡ Some tenant) }
        ensures* writes_back { sem 𝓛 (LendsKnown self.entry result) }
        ensures value { self.old.held.tenant ≡ Some result.now }
    {
        self.held.tenant()
    }

    /// Takes the tenant out, where there is one.
    pub fn take(&mut self, alloc: Global) -> Option<Box<Tenant>>
        ensures empty { self.new.held.tenant ≡ None }
        ensures value { self.old.held.tenant ≡ option_map (λ tenant. tenant.value) result }
    {
        if self.live {
            self.live = false;
            let held = std::mem::replace(&mut self.held, ErasedBox::none(alloc));
            Some(held.into_parts().into_box())
        } else {
            None
        }
    }

    /// Puts a tenant in, where there is none.
    pub fn give(&mut self, tenant: Box<Tenant>)
        requires empty { self.old.held.tenant ≡ None }
        ensures { self.new.held.tenant ≡ Some tenant.value }
    {
        self.live = true;
        let held = std::mem::replace(&mut self.held, ErasedBox::of_parts(Parts::of(tenant)));
        held.forget();
    }
}

/// What may go to another thread.
pub fn crosses<T: Send>() {}

/// A seat may go to another thread: C may let threads take over those that others leave.
pub fn seats_cross() {
    crosses::<ThreadSeat>();
}
