//! A box behind a pointer that names no type, or nothing.

ghost use Rattle.std.specs.Prelude.{◌≡◌, Option, Some, None};
ghost use Rattle.std.specs.Coded.{coded_option};
ghost use Rattle.balloc_malloc.specs.contracts.tenant.Tenant.{the_row};
ghost use Rattle.balloc_malloc.specs.declared.tenant.Tenant.{Tenant};
ghost use Rattle.balloc_malloc.specs.Owned.{tenant_owns};

use crate::parts::Parts;
use crate::tenant::Tenant;
use std::alloc::Global;
use std::marker::Model;

/// A tenant behind a pointer, or nothing.
#[repr(C)]
pub struct ErasedBox {
    at: *mut u8,
    alloc: Global,
    pub ghost tenant: { Option Tenant } by { coded_option the_row.coded },
}

impl Model for ErasedBox {
    ghost also_owns = { λ h. tenant_owns h.tenant h.alloc h.at };
}

impl ErasedBox {
    ghost use Rattle.std.specs.Borrow.{sem};
    ghost use Rattle.balloc_malloc.specs.Lent.{LendsErasedBox};

    /// Nothing.
    pub fn none(alloc: Global) -> ErasedBox
        ensures { result.tenant ≡ None }
    {
        ErasedBox {
            at: std::ptr::null_mut(),
            alloc,
        }
    }

    /// The tenant of a box.
    pub fn of_parts(parts: Parts<Tenant, Global>) -> ErasedBox
        ensures { result.tenant ≡ Some parts.value }
    {
        let Parts { ptr, alloc } = parts;
        ErasedBox {
            at: ptr as *mut u8,
            alloc,
        }
    }

    /// The box of its tenant.
    pub fn into_parts(self) -> Parts<Tenant, Global>
        requires { (tenant : Tenant) × (self.tenant ≡ Some tenant) }
        ensures { self.tenant ≡ Some result.value }
    {
        let ErasedBox { at, alloc } = self;
        Parts {
            ptr: at as *mut Tenant,
            alloc,
        }
    }

    /// Its tenant, where that lies.
    pub fn tenant(&mut self) -> &mut Tenant
        requires { (tenant : Tenant) × (self.old.tenant ≡ Some tenant) }
        ensures* writes_back { sem 𝓛 (LendsErasedBox self.entry result) }
        ensures value { self.old.tenant ≡ Some result.now }
    {
        unsafe { &mut *(self.at as *mut Tenant) }
    }

    /// Lets nothing go.
    pub fn forget(self)
        requires { self.tenant ≡ None }
    {
        let ErasedBox { at: _, alloc: _ } = self;
    }
}

// A box of a tenant may go to another thread, as the tenant may.
unsafe impl Send for ErasedBox {}
