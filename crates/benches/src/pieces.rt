//! Pieces of pages: taken, laid, summed and given back.

ghost use Rattle.std.specs.Prelude.{ℕ, ◌≡◌, ◌<◌, ◌≤◌};
ghost use Rattle.heap_geometry.specs.declared.limits.TheConstants.{LARGE_MOST};
ghost use Rattle.plain_words.specs.Places.{IsLaid};
ghost use Rattle.live_heap.specs.Passes.{IsFresh};
ghost use Rattle.memory_cache.specs.Paged.{IsPaged};
ghost use Rattle.memory_cache.specs.Pages.{IsPiece};

use heap_geometry::limits::LARGE_MOST;
use live_heap::answers::AllocAnswer;
use live_heap::heap::Heap;
use live_heap::laws::blocks::passes_hold_exactly;
use live_heap::pass::Pass;
use memory_cache::laws::passes_with_nothing_are_settled;
use memory_cache::paged::PagedCache;
use memory_cache::piece::Piece;
use std::alloc::{AllocError, Global};

/// How many pages a cache keeps whose pieces are all back.
const DEPTH: u16 = 64;

/// How many exchanges a call may lose.
const TRIES: u32 = 1000;

/// The sum of what a thread's pages gave, one piece of so many words after the other, in as many rounds.
pub fn in_pages(
    alloc: Global,
    heap: &Heap,
    pass: Pass,
    size: u64,
    rounds: u64,
) -> Result<u64, AllocError>
    requires { IsFresh heap.now pass }
{
    passes_hold_exactly();
    passes_with_nothing_are_settled();
    let Ok(mut cache) = PagedCache::open(alloc, pass, DEPTH) else {
        return Err(AllocError);
    };
    let words = size.min(u64::from(LARGE_MOST)) as u32;
    let mut sum = 0u64;
    for round in 0..rounds {
        sum = sum.wrapping_add(one_round(heap, &mut cache, words, round)?);
    }
    let _ = cache.close(heap, TRIES);
    Ok(sum)
}

/// The sum of a piece's first words, laid with the numbers from this one on.
#[inline(always)]
fn one_round(heap: &Heap, cache: &mut PagedCache, words: u32, from: u64) -> Result<u64, AllocError>
    requires cache { IsPaged heap.now cache.old }
    requires words { words ≤ LARGE_MOST }
    ensures { IsPaged heap.now cache.new }
{
    let AllocAnswer::Given(piece) = cache.take(heap, words, TRIES)? else {
        return Err(AllocError);
    };
    let (piece, sum) = summed(heap, laid(heap, piece, words, from), words);
    cache.give(heap, piece, TRIES);
    Ok(sum)
}

/// The piece, with its first words laid with the numbers from this one on, modulo 2^64.
#[inline(always)]
fn laid(heap: &Heap, piece: Piece, count: u32, from: u64) -> Piece
    requires piece { IsPiece heap.now piece }
    requires count { count ≤ piece.size }
    ensures place { (result.first ≡ piece.first) × (result.size ≡ piece.size) }
    ensures piece { IsPiece heap.now result }
    ensures laid { (k : ℕ) → k < count → IsLaid result.words.places k }
{
    let Piece {
        first,
        size,
        mut words,
    } = piece;
    for i in 0..count as usize {
        words.lay(heap.start(), first + i, from.wrapping_add(i as u64));
    }
    Piece { first, size, words }
}

/// The piece, and the sum of its first words, modulo 2^64.
#[inline(always)]
fn summed(heap: &Heap, piece: Piece, count: u32) -> (Piece, u64)
    requires piece { IsPiece heap.now piece }
    requires count { count ≤ piece.size }
    requires laid { (k : ℕ) → k < count → IsLaid piece.words.places k }
    ensures { result.0 ≡ piece }
{
    let Piece { first, size, words } = piece;
    let mut sum = 0u64;
    for i in 0..count as usize {
        sum = sum.wrapping_add(words.word(heap.start(), first + i));
    }
    (Piece { first, size, words }, sum)
}
