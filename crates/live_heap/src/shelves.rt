//! Which words may lie on which shelf.

/// What a block's words have to be where it lies on a shelf. A heap is opened with such a rule: whoever puts a block on a
/// shelf shows it, and whoever takes one from there has it, while the heap is open.
pub trait ShelfRule {
    ghost use Rattle.live_heap.specs.Shelves.{AllowedWords};

    /// Of a shelf, of what the block there serves, and of its usable words, as far as they were written.
    ghost allows: { AllowedWords };
}

/// Any words may lie on any shelf.
pub struct AnyWords;

impl ShelfRule for AnyWords {
    ghost use Rattle.live_heap.specs.Shelves.{any_words};

    ghost allows = { any_words };
}
