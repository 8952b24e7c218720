//! How memory goes out to C.

ghost use Rattle.std.specs.Prelude.{◌≡◌, ◌<◌, ◌≤◌, ◌*◌, IfSome, None, Some};
ghost use Rattle.heap_geometry.specs.declared.limits.TheConstants.{LARGE_MOST};
ghost use Rattle.plain_words.specs.declared.plain.PlainWords.{PlainWords};
ghost use Rattle.memory_cache.specs.Pages.{IsPiece};
ghost use Rattle.balloc_malloc.specs.Out.{IsAt};
ghost use Rattle.balloc_malloc.specs.Resizes.{AreNumbered, HasCopied};
ghost use Rattle.balloc_malloc.specs.Sizes.{bytes_of, words_for as least_words};

use crate::handed::Handed;
use heap_geometry::limits::LARGE_MOST;
use live_heap::heap::Heap;
use memory_cache::piece::Piece;

/// How many words so many bytes lie in, where a block has as many.
#[inline(always)]
pub fn words_for(bytes: usize) -> Option<u32>
    ensures words { IfSome result (λ words. (words ≡ least_words bytes) × (bytes ≤ 8 * LARGE_MOST) × (words ≤ LARGE_MOST)) }
    ensures none { result ≡ None → 8 * LARGE_MOST < bytes }
{
    if bytes > 8 * LARGE_MOST as usize {
        return None;
    }
    Some(((bytes + 7) / 8) as u32)
}

/// A piece goes out to C, with how many words it has.
#[inline(always)]
pub fn hand_out(heap: &Heap, piece: Piece) -> Handed
    requires { IsPiece heap.now piece }
    ensures { (result.code ≡ piece.size) × (result.words ≡ Some piece.words) × IsAt piece.words result.memory }
{
    let size = piece.size;
    send_out(heap, size, piece)
}

/// A piece goes out to C with this code.
#[inline(always)]
pub fn send_out(heap: &Heap, code: u32, piece: Piece) -> Handed
    requires { IsPiece heap.now piece }
    ensures { (result.code ≡ code) × (result.words ≡ Some piece.words) × IsAt piece.words result.memory }
{
    Handed::of_words(piece.words, heap.start(), piece.first, code)
}

/// What one piece has goes over to a larger one.
pub fn copied(heap: &Heap, from: &Piece, to: Piece) -> Piece
    requires from { IsPiece heap.now from.now × AreNumbered from.now.words }
    requires to { IsPiece heap.now to }
    requires larger { from.now.size < to.size }
    ensures place { (result.first ≡ to.first) × (result.size ≡ to.size) }
    ensures piece { IsPiece heap.now result }
    ensures copied { HasCopied from.now.words result.words }
{
    let Piece {
        first,
        size,
        mut words,
    } = to;
    let len = from.size as usize;
    let had = from.words.slice(heap.start(), from.first, len);
    for i in 0..had.len() {
        words.lay(heap.start(), first + i, had[i]);
    }
    Piece { first, size, words }
}

/// How many bytes a piece has.
pub fn bytes_in(piece: &Piece) -> usize
    ensures { result ≡ bytes_of piece.now.size }
{
    8 * piece.size as usize
}
