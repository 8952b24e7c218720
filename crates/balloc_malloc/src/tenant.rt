//! The tenant of a seat: a pass with pages of memory, and its share in the heap.

ghost use Rattle.std.specs.Prelude.{◌≡◌, IfSome, None};
ghost use Rattle.std.specs.Arc.{arc_value};
ghost use Rattle.memory_cache.specs.Pages.{IsPiece};
ghost use Rattle.memory_cache.specs.Paged.{IsOut, IsPaged};

use crate::bundle::Bundle;
use crate::codes::{DONE, TOO_LARGE, piece_or_cause};
use crate::handed::Handed;
use crate::handing::{bytes_in, copied, hand_out, send_out, words_for};
use live_heap::heap::Heap;
use memory_cache::paged::PagedCache;
use memory_cache::piece::Piece;
use plain_words::PlainWords;
use std::alloc::Global;
use std::sync::Arc;

/// How many lost exchanges interrupt a call.
const TRIES: u32 = 1000;

/// So many bytes, at most, are taken of a page that is ready without a look at others.
const READY_MOST: usize = 2048;

/// A pass with pages of memory, and its share in the heap.
#[derive(Drop)]
pub struct Tenant {
    heap: Arc<Heap, Global>,
    cache: PagedCache,
    ghost is_tended: { ∥ IsPaged (arc_value heap) cache ∥₁ },
}

impl Tenant {
    ghost use Rattle.std.specs.List.{AllByRecursion};
    ghost use Rattle.balloc_malloc.specs.Bundles.{IsEmptied, IsOfHeap, bundled};
    ghost use Rattle.balloc_malloc.specs.Gives.{IsBack};
    ghost use Rattle.balloc_malloc.specs.Out.{IsLent};
    ghost use Rattle.balloc_malloc.specs.Resizes.{AreNumbered, Resizes};
    ghost use Rattle.std.specs.Prelude.{◌≡◌, ◌≤◌, ◌*◌};
    ghost use Rattle.heap_geometry.specs.declared.limits.TheConstants.{LARGE_MOST};
    ghost use Rattle.balloc_malloc.specs.Sizes.{words_for};
    ghost use Rattle.balloc_malloc.specs.Takes.{Serves, Takes};
    ghost use Rattle.balloc_malloc.specs.Tenants.{IsTended, heap_of};

    /// A tenant with this cache in front of the heap.
    pub fn new(heap: Arc<Heap, Global>, cache: PagedCache) -> Tenant
        requires { IsPaged (arc_value heap) cache }
        ensures { (arc_value result.heap ≡ arc_value heap) × (result.cache ≡ cache) }
    {
        Tenant { heap, cache }
    }

    /// What its type keeps, opened for a call: a field holds it only as a fact that has one proof.
    #[inline(always)]
    fn tended(&self)
        ensures { IsTended self.now }
    {}

    /// Memory of at least so many bytes, at most 2,048, of a page that is ready. Where none is nothing has changed.
    #[inline(always)]
    pub fn take_ready(&mut self, bytes: usize) -> Handed
        ensures { Serves self.old bytes result.code result.words result.memory self.new }
    {
        self.tended();
        if bytes > READY_MOST {
            return Handed::none(DONE);
        }
        match self.cache.take_spare(&self.heap, ((bytes + 7) / 8) as u32) {
            Some(piece) => hand_out(&self.heap, piece),
            None => self.take_last(bytes),
        }
    }

    /// The same where a page has its last piece, or none is ready. It stands apart, so that the way before it calls nothing.
    #[inline(never)]
    fn take_last(&mut self, bytes: usize) -> Handed
        requires { bytes ≤ READY_MOST }
        ensures { Serves self.old bytes result.code result.words result.memory self.new }
    {
        self.tended();
        match self.cache.take_ready(&self.heap, ((bytes + 7) / 8) as u32) {
            Some(piece) => hand_out(&self.heap, piece),
            None => Handed::none(DONE),
        }
    }

    /// Memory of at least so many bytes.
    #[inline(always)]
    pub fn take(&mut self, bytes: usize) -> Handed
        ensures { Takes self.old bytes result.code result.words result.memory self.new }
    {
        self.tended();
        let Some(words) = words_for(bytes) else {
            return Handed::none(TOO_LARGE);
        };
        match self.cache.take_ready(&self.heap, words) {
            Some(piece) => hand_out(&self.heap, piece),
            None => self.take_anew(bytes, words),
        }
    }

    /// The same where no page is ready. It stands apart, so that the way before it calls nothing.
    #[inline(never)]
    fn take_anew(&mut self, _bytes: usize, words: u32) -> Handed
        requires { (words ≡ words_for _bytes) × (_bytes ≤ 8 * LARGE_MOST) × (words ≤ LARGE_MOST) }
        ensures { Takes self.old _bytes result.code result.words result.memory self.new }
    {
        self.tended();
        match piece_or_cause(self.cache.take(&self.heap, words, TRIES)) {
            Ok(piece) => hand_out(&self.heap, piece),
            Err(code) => Handed::none(code),
        }
    }

    /// Takes memory back, by its first word and how many words it has.
    #[inline(always)]
    pub fn give(&mut self, words: PlainWords, first: usize, size: u32)
        requires { IsLent self.old words first size }
        ensures { IsBack self.old first self.new }
    {
        self.tended();
        let piece = Piece { first, size, words };
        self.cache.give(&self.heap, piece, TRIES);
    }

    /// Memory of at least so many bytes, with what this one has, as far as both go: this one, where it has as many;
    /// else another one, and this one is given back.
    pub fn resize(&mut self, words: PlainWords, first: usize, size: u32, bytes: usize) -> Handed
        requires lent { IsLent self.old words first size }
        requires numbered { AreNumbered words }
        ensures { Resizes self.old words size bytes result.code result.words result.memory self.new }
    {
        self.tended();
        let had = Piece { first, size, words };
        if bytes <= bytes_in(&had) {
            return hand_out(&self.heap, had);
        }
        let Some(words) = words_for(bytes) else {
            return send_out(&self.heap, TOO_LARGE, had);
        };
        match piece_or_cause(self.cache.take(&self.heap, words, TRIES)) {
            Ok(larger) => {
                let larger = copied(&self.heap, &had, larger);
                self.cache.give(&self.heap, had, TRIES);
                hand_out(&self.heap, larger)
            }
            Err(code) => send_out(&self.heap, code, had),
        }
    }

    /// Takes a piece back where it is out; else that comes back.
    #[inline(always)]
    fn take_back(&mut self, returned: Piece) -> Option<Piece>
        requires { IsPiece (heap_of self.old) returned }
        ensures back { result ≡ None → IsOut self.old.cache returned.first returned.size × IsBack self.old returned.first self.new }
        ensures stays { IfSome result (λ x. (x ≡ returned) × (self.new ≡ self.old) × (¬ IsOut self.old.cache returned.first returned.size)) }
    {
        self.tended();
        match self.cache.take_back(&self.heap, returned, TRIES) {
            Ok(()) => None,
            Err(stray) => Some(stray),
        }
    }

    /// Takes back what a bundle has, the last first, up to a piece that isn't out.
    pub fn empty(&mut self, bundle: &mut Bundle)
        requires { AllByRecursion (IsOfHeap (heap_of self.old)) (bundled bundle.old) }
        ensures { IsEmptied self.old (bundled bundle.old) self.new (bundled bundle.new) }
    {
        while let Some((first, size, words)) = bundle.pop() {
            let last = Piece {
                first: first as usize,
                size,
                words,
            };
            if let Some(last) = self.take_back(last) {
                bundle.put(last.words, first, size);
                return;
            }
        }
    }

    /// How many takes a page that was ready has served, at most 2^64 - 1.
    pub fn hits(&self) -> u64
        ensures { result ≡ self.now.cache.hits }
    {
        self.cache.hits()
    }

    /// How many blocks are out, those in magazines too.
    pub fn out(&self) -> u64
        ensures { result ≡ self.now.cache.cache.pass.out }
    {
        u64::from(self.cache.out())
    }

    /// How many exchanges its pass has lost, at most 2^64 - 1.
    pub fn lost(&self) -> u64
        ensures { result ≡ self.now.cache.cache.pass.errand.lost }
    {
        self.cache.lost()
    }
}
