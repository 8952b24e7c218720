//! A block's words as an allocator gives them out.
ghost use Rattle.std.specs.Prelude.{◌≡◌, ℕ, ◌-◌, ◌+◌, ◌*◌, ◌^◌, ◌<◌, ◌≤◌, length};
ghost use Rattle.std.specs.Ptr.{ptr_add};
ghost use Rattle.std.specs.Borrow.{u64};
ghost use denote.RawPtr.{Ptr};
ghost use Rattle.plain_words.specs.Places.{AllHere, IsLaid, number_at};
ghost use Rattle.heap_allocator.specs.Pieces.{words_for, labelled, piece_owns};

use plain_words::{PlainWords, Start};
use std::marker::{Model, PhantomData};

/// Memory of so many bytes for whoever an allocator gives it to. The last word of its block is laid with a label, and the
/// words before that one are spare. One that is dropped leaves its words to nobody.
#[derive(Drop)]
pub(crate) struct Piece {
    pub(crate) memory: *mut u8,
    pub(crate) size: usize,
    pub(crate) ghost at: { Ptr },
    pub(crate) ghost first: { ℕ },
    pub(crate) ghost count: { ℕ },
    pub(crate) ghost label: { ℕ },
    pub(crate) ghost placed: { (memory ≡ ptr_add u64 first at) × (words_for size ≤ count) × (size < 2 ^ 63) },
}

impl Model for Piece {
    ghost also_owns = { λ p. piece_owns p.at p.first p.count p.label };
}

impl Piece {
    /// Words as memory of so many bytes. The last is laid with the label; what the others hold is given up.
    pub(crate) fn of_words(words: PlainWords, start: Start, first: usize, size: usize) -> Piece
        requires words { (start.at ≡ words.at) × (first ≡ words.first) × AllHere words.places }
        requires label { IsLaid words.places (length words.places - 1) }
        requires room { (words_for size ≤ length words.places) × (size < 2 ^ 63) }
        ensures { (result.at ≡ words.at) × (result.first ≡ words.first) × (result.count ≡ length words.places) × (result.size ≡ size) × (result.label ≡ number_at words.places (length words.places - 1)) }
    {
        let PlainWords { mark: _ } = words;
        let memory = unsafe { start.at.add(first) as *mut u8 };
        Piece { memory, size }
    }

    /// The label, which so many words lie before, and the words again.
    pub(crate) fn into_words(self, last: usize) -> (u64, PlainWords)
        requires { last + 1 ≡ self.count }
        ensures label { result.0 ≡ self.label }
        ensures words { (result.1.at ≡ self.at) × (result.1.first ≡ self.first) × (result.1.places ≡ labelled self.count self.label) }
    {
        let Piece { memory, size: _ } = self;
        let label = unsafe { (memory as *const u64).add(last).read() };
        (label, PlainWords { mark: PhantomData })
    }
}
