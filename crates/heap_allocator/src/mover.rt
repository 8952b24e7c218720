//! An allocator that moves whatever grows or shrinks.

ghost use Rattle.std.specs.Prelude.{◌≡◌, ◌<◌, ◌≤◌, ◌%◌, ◌^◌, true, IfSome, length};
ghost use Rattle.plain_words.specs.Places.{AllHere};
ghost use Rattle.memory_cache.specs.Pages.{IsPiece};
ghost use Rattle.memory_cache.specs.Sizes.{piece_words};
ghost use Rattle.heap_allocator.specs.declared.mover.TheConstants.{MOST_BYTES};
ghost use Rattle.heap_allocator.specs.Desks.{IsDeskOf};
ghost use Rattle.heap_allocator.specs.Pieces.{AreOfOnePiece, IsPieceFor, piece_token, words_for, words_of};
ghost use Rattle.heap_allocator.specs.Served.{IsServed};

use crate::desk::Desk;
use crate::piece::Piece;
use crate::slot::Slot;
use live_heap::heap::Heap;
use memory_cache::piece::Piece as PagePiece;
use memory_cache::sizes::piece_words;
use std::alloc::{AllocError, Allocator};
use std::mem::forget;

/// The most bytes that the largest block serves, before a label.
pub(crate) const MOST_BYTES: usize = 8 * 131_070;

/// The cell of a desk of the heap, as an allocator.
pub(crate) struct Mover<'h> {
    pub(crate) heap: &'h Heap,
    pub(crate) slot: Slot,
    pub(crate) ghost same: { slot.heap ≡ heap.now },
}

impl<'h> Mover<'h> {
    /// A piece of so many bytes.
    pub(crate) fn take(&self, size: usize, align: usize) -> Option<Piece>
        ensures { IfSome result (λ p. IsServed self.now.heap.now.region.at p × (p.size ≡ size) × (align ≤ 16) × (p.first % 2 ≡ 1)) }
    {
        if align > 16 || size > MOST_BYTES {
            return None;
        }
        let mut desk = self.slot.replace(None)?;
        let words = words_of(size) as u32 + 1;
        match desk.take_ready(self.heap, words) {
            Some(taken) => {
                self.put(desk);
                Some(piece_of(self.heap, taken, size))
            }
            None => self.take_anew(desk, words, size),
        }
    }

    /// The same: where a page has its last piece, or a page is cut. It stands apart, so that the way before it calls nothing.
    #[inline(never)]
    fn take_anew(&self, mut desk: Box<Desk>, words: u32, size: usize) -> Option<Piece>
        requires desk { IsDeskOf self.now.slot desk.value }
        requires words { words ≡ words_for size }
        requires size { size ≤ MOST_BYTES }
        ensures { IfSome result (λ p. IsServed self.now.heap.now.region.at p × (p.size ≡ size) × (p.first % 2 ≡ 1)) }
    {
        let taken = desk.take(self.heap, words);
        self.put(desk);
        Some(piece_of(self.heap, taken?, size))
    }

    /// Puts the desk into its cell again, which was empty meanwhile: so there is nothing to drop.
    #[inline(always)]
    fn put(&self, desk: Box<Desk>)
        requires { IsDeskOf self.now.slot desk.value }
    {
        forget(self.slot.replace(Some(desk)));
    }

    /// Takes a piece of so many bytes back.
    pub(crate) fn give(&self, piece: Piece, size: usize)
        requires { IsServed self.now.heap.now.region.at piece × (piece.size ≡ size) }
    {
        let Some(mut desk) = self.slot.replace(None) else {
            return;
        };
        if let Some(taken) = taken_of(piece, size) {
            desk.give(self.heap, taken);
        }
        self.put(desk);
    }

    /// The cell of its desk.
    pub(crate) fn into_slot(self) -> Slot
        ensures { result ≡ self.entry.slot }
    {
        let Mover { heap: _, slot } = self;
        slot
    }
}

unsafe impl<'h> Allocator for Mover<'h> {
    ghost dealloc_token = { λ a. piece_token a.heap.now.region.at };

    fn allocate(&self, size: usize, align: usize) -> Result<*mut u8, AllocError> {
        match self.take(size, align) {
            Some(Piece { memory, size: _ }) => Ok(memory),
            None => Err(AllocError),
        }
    }

    unsafe fn deallocate(&self, ptr: *mut u8, size: usize, _align: usize) {
        self.give(Piece { memory: ptr, size }, size);
    }
}

impl<'h> Drop for Mover<'h> {
    fn drop(self) {
        let Mover { heap: _, slot } = self;
        drop(slot.into_inner());
    }
}

/// Whether one piece serves so many bytes and so many.
pub(crate) fn are_of_one_piece(old: usize, new: usize) -> bool
    ensures yes { result ≡ true → AreOfOnePiece old new }
    ensures no { AreOfOnePiece old new → result ≡ true }
    ensures room { result ≡ true → words_for new ≤ piece_words (words_for new) }
{
    if old > MOST_BYTES || new > MOST_BYTES {
        return false;
    }
    piece_words(words_of(old) as u32 + 1) == piece_words(words_of(new) as u32 + 1)
}

/// How many words so many bytes lie in.
fn words_of(size: usize) -> usize
    requires { size ≤ MOST_BYTES }
    ensures { result ≡ words_of size }
{
    (size + 7) / 8
}

/// The piece, as memory of so many bytes. Its label is the number of its first word.
fn piece_of(heap: &Heap, taken: PagePiece, size: usize) -> Piece
    requires piece { IsPiece heap.now taken }
    requires aligned { taken.first % 2 ≡ 1 }
    requires within { taken.first < 2 ^ 33 }
    requires sized { taken.size ≡ piece_words (words_for size) }
    requires long { words_for size ≤ taken.size }
    requires size { size ≤ MOST_BYTES }
    ensures label { result.label ≡ taken.first }
    ensures served { IsServed heap.now.region.at result }
    ensures size { result.size ≡ size }
    ensures aligned { result.first % 2 ≡ 1 }
{
    let start = heap.start();
    let first = taken.first;
    let last = first + taken.size as usize - 1;
    let mut words = taken.words;
    words.lay(start, last, first as u64);
    Piece::of_words(words, start, first, size)
}

/// What was taken as memory of so many bytes; its label says where it begins.
fn taken_of(piece: Piece, size: usize) -> Option<PagePiece>
    requires { IsPieceFor size piece.first piece.count piece.label }
    ensures { IfSome result (λ taken. (taken.first ≡ piece.first) × (taken.size ≡ piece.count) × (taken.words.at ≡ piece.at)
        × (taken.words.first ≡ taken.first) × (length taken.words.places ≡ taken.size) × AllHere taken.words.places) }
{
    if size > MOST_BYTES {
        return None;
    }
    let count = piece_words(words_of(size) as u32 + 1);
    let (label, words) = piece.into_words(count as usize - 1);
    Some(PagePiece {
        first: label as usize,
        size: count,
        words,
    })
}
