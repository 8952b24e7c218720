//! Words of a page, in a caller's hand.

use plain_words::PlainWords;

/// Words that a caller was given, as plain memory: so many, from the word `first` of the heap's memory on. One that is
/// dropped keeps its words out for ever.
#[derive(Drop)]
pub struct Piece {
    pub first: usize,
    pub size: u32,
    pub words: PlainWords,
}
