//! So many words of an allocator's memory.
ghost use Rattle.std.specs.Prelude.{◌≡◌, ℕ, ◌-◌, ◌+◌, ◌*◌, ◌^◌, ◌<◌, length, slice_set, IfOk};
ghost use Rattle.std.specs.Ptr.{ptr_add};
ghost use Rattle.std.specs.Borrow.{u64};
ghost use Rattle.plain_words.specs.Places.{AllHere, IsLaid, laid, laids, place_at, blanks};

use crate::block::{Deed, allocate, deallocate};
use crate::plain::{PlainWords, Start};
use std::alloc::{AllocError, Allocator};

/// What stands behind words that are with tokens: where they begin, how many they are, and the right to free them. They
/// begin 8 bytes behind a multiple of 16. One that is dropped leaves its memory allocated.
#[derive(Drop)]
pub struct Backing<A: Allocator> {
    pub start: Start,
    pub words: usize,
    block: Start,
    pairs: usize,
    spare: PlainWords,
    deed: Deed<A>,
    heap: A,
    ghost begun: { start.at ≡ ptr_add u64 1 block.at },
    ghost spared: { (spare.at ≡ start.at) × (spare.first ≡ words) × AllHere spare.places × (words + length spare.places + 1 ≡ pairs + pairs) × (pairs < 2 ^ 59) },
    ghost deeded: { (deed.block ≡ block.at) × (deed.pairs ≡ pairs) × (deed.alloc ≡ heap) },
}

impl<A: Allocator> Backing<A> {
    /// So many words, none of them laid. From 2^59 words on there is no memory.
    pub fn reserve(alloc: A, words: usize) -> Result<(Backing<A>, PlainWords), AllocError>
        ensures { IfOk result (λ r. (r.0.words ≡ words) × (r.1.at ≡ r.0.start.at) × (r.1.first ≡ 0) × (r.1.places ≡ blanks words)) }
    {
        if words >= 1 << 59 {
            return Err(AllocError);
        }
        let pairs = words / 2 + 1;
        let (block, start, all, deed) = allocate(&alloc, pairs)?;
        let (plain, spare) = all.split(words);
        Ok((
            Backing {
                start,
                words,
                block,
                pairs,
                spare,
                deed,
                heap: alloc,
            },
            plain,
        ))
    }

    /// The words go back to their allocator.
    pub fn free(self, plain: PlainWords)
        requires { (plain.at ≡ self.start.at) × (plain.first ≡ 0) × (length plain.places ≡ self.words) × AllHere plain.places }
    {
        let Backing {
            start: _,
            words: _,
            block,
            pairs,
            spare,
            deed,
            heap,
        } = self;
        deallocate(&heap, block, pairs, plain.join(spare), deed);
        drop(heap);
    }
}

/// So many words, all of them here. They are freed where it is dropped.
pub struct Room<A: Allocator> {
    pub plain: PlainWords,
    pub backing: Backing<A>,
    ghost whole: { (plain.at ≡ backing.start.at) × (plain.first ≡ 0) × (length plain.places ≡ backing.words) × AllHere plain.places },
}

impl<A: Allocator> Room<A> {
    /// So many words, none of them laid. From 2^59 words on there is no memory.
    pub fn new(alloc: A, words: usize) -> Result<Room<A>, AllocError>
        ensures { IfOk result (λ r. r.plain.places ≡ blanks words) }
    {
        let (backing, plain) = Backing::reserve(alloc, words)?;
        Ok(Room { plain, backing })
    }

    /// As many words, each laid with its number.
    pub fn of_words(alloc: A, words: &[u64]) -> Result<Room<A>, AllocError>
        ensures { IfOk result (λ r. r.plain.places ≡ laids words.now) }
    {
        let mut room = Room::new(alloc, words.len())?;
        let mut i = 0;
        while i < words.len() {
            room.lay(i, words[i]);
            i += 1;
        }
        Ok(room)
    }

    /// The words, and what stands behind them.
    pub fn into_parts(self) -> (PlainWords, Backing<A>)
        ensures { (result.0 ≡ self.plain) × (result.1 ≡ self.backing) }
    {
        let Room { plain, backing } = self;
        (plain, backing)
    }

    /// How many words it has.
    pub fn count(&self) -> usize
        ensures { result ≡ length self.now.plain.places }
    {
        self.backing.words
    }

    /// Lays a word with a number, whether it was laid before or never.
    pub fn lay(&mut self, word: usize, number: u64)
        requires { word < length self.old.plain.places }
        ensures { self.new.plain.places ≡ slice_set self.old.plain.places word (laid number) }
    {
        self.plain.lay(self.backing.start, word, number);
    }

    /// A word that was laid.
    pub fn word(&self, word: usize) -> u64
        requires { IsLaid self.now.plain.places word }
        ensures { place_at self.now.plain.places word ≡ laid result }
    {
        self.plain.word(self.backing.start, word)
    }
}

impl<A: Allocator> Drop for Room<A> {
    fn drop(self) {
        let Self { plain, backing } = self;
        backing.free(plain);
    }
}
