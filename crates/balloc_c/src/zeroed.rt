//! The words of a block as they come home from a free.

ghost use Rattle.std.specs.Prelude.{◌≡◌};
ghost use Rattle.plain_words.specs.Places.{laids};
ghost use Rattle.balloc_c.specs.Lending.{IsRoomFor, zeros};

use crate::lent::LentBlock;
use heap_geometry::need::usable;
use live_heap::heap::Heap;
use plain_words::PlainWords;

/// The same words, each of them 0.
pub fn zeroed(heap: &Heap, lent: &LentBlock, words: PlainWords) -> PlainWords
    requires { IsRoomFor heap.now lent.now words }
    ensures { (result.at ≡ words.at) × (result.first ≡ words.first) × (result.places ≡ laids (zeros words)) }
{
    let first = lent.place as usize + 1;
    let end = first + usable(lent.need) as usize;
    let mut words = words;
    words.fill(heap.start(), first, end, 0);
    words
}
