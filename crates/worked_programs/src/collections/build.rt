//! What a thread builds over its part of a heap.

ghost use Rattle.std.specs.Prelude.{◌≡◌, ◌*◌, ◌≤◌, IfOk};

use heap_allocator::HeapAllocator;
use live_heap::heap::Heap;
use std::alloc::AllocError;
use std::collections::BTreeMap;
use std::snapshot::Snapshot;

/// So many things that were built over an allocator. Contracts see beside them of which heap the allocator is.
#[derive(Drop)]
pub struct Built {
    count: u32,
    heap: Snapshot<Heap>,
}

impl Built {
    /// How many things they are.
    pub fn count(&self) -> u32
        ensures { result ≡ self.now.count }
    {
        self.count
    }
}

/// Builds a list of words of 128 bits, a map and a text of so many things each, and counts them. All three are dropped
/// again, also where there is no memory for one more thing.
pub(crate) fn build(heap: &HeapAllocator, things: u32) -> Result<Built, AllocError>
    requires { things ≤ 1000 }
    ensures count { IfOk result (λ built. built.count ≡ 3 * things) }
    ensures heap { IfOk result (λ built. built.heap.value ≡ heap.now.heap.now) }
{
    let mut list = Vec::new(heap);
    let mut map = BTreeMap::new(heap);
    let mut text = String::new(heap);
    for thing in 0..things {
        list.push(u128::from(thing))?;
        map.insert(thing, u64::from(thing))?;
        text.push('.')?;
    }
    Ok(Built {
        count: (list.len() + map.len() + text.len()) as u32,
        heap: Snapshot::of(heap.heap()),
    })
}

/// Appends to a list until there is no memory for more, and answers how long it was. It is dropped again.
pub(crate) fn fill(heap: &HeapAllocator) -> u32 {
    let mut list = Vec::new(heap);
    let mut length = 0;
    while length < u32::MAX && list.push(u64::from(length)).is_ok() {
        length += 1;
    }
    length
}
