//! Blocks of an allocator.
ghost use Rattle.std.specs.Prelude.{◌≡◌, ℕ, ◌-◌, ◌+◌, ◌*◌, ◌^◌, ◌<◌, length, IfOk};
ghost use Rattle.std.specs.Ptr.{ptr_add};
ghost use Rattle.std.specs.Borrow.{u64};
ghost use base.Fml.{ftrue};
ghost use denote.RawPtr.{Ptr};
ghost use Rattle.plain_words.specs.Places.{AllHere, blanks};
ghost use Rattle.plain_words.specs.Owned.{deed_owns};

use crate::plain::{PlainWords, Start};
use std::alloc::{AllocError, Allocator};
use std::marker::{Model, PhantomData, Send, Sync};

/// The right to give the block of `pairs` pairs of words at `block` back to `alloc`, and its first word. It has no
/// bytes. One that is dropped leaves the block allocated.
#[derive(Drop)]
pub struct Deed<A: Allocator> {
    mark: PhantomData<*const A>,
    pub ghost block: { Ptr },
    pub ghost pairs: { ℕ },
    pub ghost alloc: { A },
}

impl<A: Allocator> Model for Deed<A> {
    ghost also_owns = { λ d. deed_owns (A.dealloc_token d.alloc) d.block d.pairs };

    ghost also_shares = { λ _ _ _. ftrue };
}

unsafe impl<A: Allocator + Send> Send for Deed<A> {}

// A `&` to it holds nothing.
unsafe impl<A: Allocator> Sync for Deed<A> {}

/// A block that is aligned to 16 bytes, and all its words but the first. It answers where the block begins, and where
/// those words do: 8 bytes behind.
pub(crate) fn allocate<A: Allocator>(
    alloc: &A,
    pairs: usize,
) -> Result<(Start, Start, PlainWords, Deed<A>), AllocError>
    requires { (0 < pairs) × (pairs * 16 < 2 ^ 63) }
    ensures { IfOk result (λ r. (r.1.at ≡ ptr_add u64 1 r.0.at) × (r.2.at ≡ r.1.at) × (r.2.first ≡ 0) × (r.2.places ≡ blanks (pairs + pairs - 1)) × (r.3.block ≡ r.0.at) × (r.3.pairs ≡ pairs) × (r.3.alloc ≡ alloc.now)) }
{
    match alloc.allocate(pairs * 16, 16) {
        Ok(bytes) => {
            let block = Start {
                at: bytes as *mut u64,
            };
            let start = Start {
                at: unsafe { block.at.add(1) },
            };
            Ok((
                block,
                start,
                PlainWords { mark: PhantomData },
                Deed { mark: PhantomData },
            ))
        }
        Err(error) => Err(error),
    }
}

/// The whole block goes back.
pub(crate) fn deallocate<A: Allocator>(
    alloc: &A,
    block: Start,
    pairs: usize,
    words: PlainWords,
    deed: Deed<A>,
)
    requires words { (words.at ≡ ptr_add u64 1 block.at) × (words.first ≡ 0) × (length words.places + 1 ≡ pairs + pairs) × AllHere words.places }
    requires deed { (deed.block ≡ block.at) × (deed.pairs ≡ pairs) × (deed.alloc ≡ alloc.now) }
{
    let PlainWords { mark: _ } = words;
    let Deed { mark: _ } = deed;
    unsafe {
        alloc.deallocate(block.at as *mut u8, pairs * 16, 16);
    }
}
