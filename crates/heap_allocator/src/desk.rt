//! What stands behind an allocator: its cache, whose pieces collections have.

ghost use Rattle.std.specs.Prelude.{ℕ, ◌≡◌, ◌≢◌, ◌%◌, ◌<◌, ◌≤◌, ◌^◌, ◌⊎◌, [], None, IfSome, IsSome, IsSomeAnd};
ghost use Rattle.heap_geometry.specs.declared.limits.TheConstants.{LARGE_MOST};
ghost use Rattle.errand_steps.specs.Begins.{IsIdle};
ghost use Rattle.live_heap.specs.Holdings.{HoldsExactly};
ghost use Rattle.live_heap.specs.Passes.{IsOf};
ghost use Rattle.memory_cache.specs.Paged.{HasPieceReady};
ghost use Rattle.memory_cache.specs.Pages.{IsPiece};
ghost use Rattle.memory_cache.specs.Sizes.{piece_words};
ghost use Rattle.heap_allocator.specs.Desks.{IsCallers, IsDesk, IsOutOf, StaysOpen};

use live_heap::answers::AllocAnswer;
use live_heap::heap::Heap;
use live_heap::pass::Pass;
use memory_cache::paged::PagedCache;
use memory_cache::piece::Piece;

/// A thread's cache of a heap, which it has until it is closed. Which pieces are out with collections the cache tells.
#[derive(Drop)]
pub(crate) struct Desk {
    pub(crate) cache: Option<PagedCache>,
    pub(crate) tries: u32,
}

impl Desk {
    /// A piece of at least so many words, which was not out and is now.
    #[inline(always)]
    pub(crate) fn take(&mut self, heap: &Heap, words: u32) -> Option<Piece>
        requires desk { IsDesk heap.now self.old }
        requires words { words ≤ LARGE_MOST }
        ensures desk { IsDesk heap.now self.new }
        ensures caller { (caller : ℕ) → IsCallers caller self.old → IsCallers caller self.new }
        ensures given { IfSome result (λ piece. IsPiece heap.now piece × (words ≤ piece.size) × (piece.size ≡ piece_words words)) }
        ensures aligned { IfSome result (λ piece. piece.first % 2 ≡ 1) }
        ensures within { IfSome result (λ piece. piece.first < 2 ^ 33) }
        ensures fresh { IfSome result (λ piece. (size : ℕ) → ¬ IsOutOf self.old piece.first size) }
        ensures out { IfSome result (λ piece. IsOutOf self.new piece.first piece.size) }
        ensures keeps { (first size : ℕ) → IsOutOf self.old first size → IsOutOf self.new first size }
        ensures only { (first size : ℕ) → IsOutOf self.new first size → IfSome result (λ piece. first ≢ piece.first) → IsOutOf self.old first size }
        ensures served { IsSomeAnd self.old.cache (λ cache. HasPieceReady cache (piece_words words)) → IsSome result }
    {
        let Some(cache) = &mut self.cache else {
            return None;
        };
        let Ok(told) = cache.take(heap, words, self.tries) else {
            return None;
        };
        match told {
            AllocAnswer::Given(piece) => Some(piece),
            _ => None,
        }
    }

    /// What `take` gives of a page that is ready with two pieces or more.
    #[inline(always)]
    pub(crate) fn take_ready(&mut self, heap: &Heap, words: u32) -> Option<Piece>
        requires desk { IsDesk heap.now self.old }
        requires words { words ≤ LARGE_MOST }
        ensures desk { IsDesk heap.now self.new }
        ensures caller { (caller : ℕ) → IsCallers caller self.old → IsCallers caller self.new }
        ensures given { IfSome result (λ piece. IsPiece heap.now piece × (words ≤ piece.size) × (piece.size ≡ piece_words words)) }
        ensures aligned { IfSome result (λ piece. piece.first % 2 ≡ 1) }
        ensures within { IfSome result (λ piece. piece.first < 2 ^ 33) }
        ensures fresh { IfSome result (λ piece. (size : ℕ) → ¬ IsOutOf self.old piece.first size) }
        ensures out { IfSome result (λ piece. IsOutOf self.new piece.first piece.size) }
        ensures keeps { IfSome result (λ _. (first size : ℕ) → IsOutOf self.old first size → IsOutOf self.new first size) }
        ensures only { IfSome result (λ piece. (first size : ℕ) → IsOutOf self.new first size → first ≢ piece.first → IsOutOf self.old first size) }
        ensures none { result ≡ None → self.new ≡ self.old }
    {
        match &mut self.cache {
            Some(cache) => cache.take_spare(heap, words),
            None => None,
        }
    }

    /// Takes a piece back. The words of one that isn't out stay out for ever.
    #[inline(always)]
    pub(crate) fn give(&mut self, heap: &Heap, piece: Piece)
        requires desk { IsDesk heap.now self.old }
        requires piece { IsPiece heap.now piece }
        ensures desk { IsDesk heap.now self.new }
        ensures caller { (caller : ℕ) → IsCallers caller self.old → IsCallers caller self.new }
        ensures back { ¬ IsOutOf self.new piece.first piece.size }
        ensures keeps { (first size : ℕ) → IsOutOf self.old first size → first ≢ piece.first → IsOutOf self.new first size }
        ensures only { (first size : ℕ) → IsOutOf self.new first size → IsOutOf self.old first size }
        ensures stray { (¬ IsOutOf self.old piece.first piece.size) → self.new ≡ self.old }
    {
        if let Some(cache) = &mut self.cache {
            let _ = cache.take_back(heap, piece, self.tries);
        }
    }

    /// Frees what the pages and the magazines have, and gives the pass where nothing is out with it. The desk has no cache
    /// from then on, and gives nothing.
    pub(crate) fn close(&mut self, heap: &Heap) -> Option<Pass>
        requires desk { IsDesk heap.now self.old }
        ensures desk { IsDesk heap.now self.new }
        ensures closed { IfSome result (λ pass. IsOf heap.now pass × IsIdle pass.errand × HoldsExactly pass [] × (pass.out ≡ 0)) }
        ensures caller { (caller : ℕ) → IsCallers caller self.old
            → IsCallers caller self.new × IfSome result (λ pass. pass.errand.caller ≡ caller) }
        ensures keeps { result ≡ None → (first size : ℕ) → IsOutOf self.old first size → IsOutOf self.new first size }
        ensures only { (first size : ℕ) → IsOutOf self.new first size → IsOutOf self.old first size }
        ensures open { result ≡ None → (self.old.cache ≡ None) ⊎ IsSomeAnd self.new.cache StaysOpen }
    {
        match self.cache.take()?.close(heap, self.tries) {
            Ok(pass) => Some(pass),
            Err(cache) => {
                self.cache = Some(cache);
                None
            }
        }
    }
}
