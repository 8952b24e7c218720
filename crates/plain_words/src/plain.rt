//! Words that whoever holds a token owns.
ghost use Rattle.std.specs.Prelude.{◌≡◌, ℕ, ◌<◌, ◌≤◌, ◌+◌, ◌-◌, ◌*◌, ◌^◌, List, ◌++◌, length, take, drop, replicate, slice_set, ⊤};
ghost use Rattle.std.specs.Borrow.{sem};
ghost use denote.RawPtr.{Ptr};
ghost use Rattle.plain_words.specs.Places.{Place, laid, laids, place_at, AllHere, IsHere, IsLaid, IsLaidRun, run, put};
ghost use Rattle.plain_words.specs.Owned.{plain_owns, plain_lent};

use std::alloc::AllocError;
use std::marker::{Model, PhantomData, Send, Sync};
use std::slice;

/// Where memory begins. It owns nothing.
pub struct Start {
    pub at: *mut u64,
}

impl Clone for Start {
    ghost is_clone = { λ x y. y ≡ x };

    ghost is_infallible = { λ _. ⊤ };

    fn clone(&self) -> Result<Start, AllocError> {
        Ok(*self)
    }
}

impl Copy for Start {}

unsafe impl Send for Start {}

unsafe impl Sync for Start {}

/// Words that lie side by side in memory that begins at `at`, the first of them the word `first`. It has no bytes: a
/// call is told where the memory begins. One that is dropped leaves its words to nobody.
#[derive(Drop)]
pub struct PlainWords {
    pub mark: PhantomData<*const u64>,
    pub ghost at: { Ptr },
    pub ghost first: { ℕ },
    pub ghost places: { List Place },
}

impl Model for PlainWords {
    ghost also_owns = { λ w. plain_owns w.at w.first w.places };

    ghost also_shares = { λ w _ κ. plain_lent w.at w.first w.places κ };
}

unsafe impl Send for PlainWords {}

unsafe impl Sync for PlainWords {}

impl PlainWords {
    ghost use Rattle.plain_words.specs.Lends.{lends_words};

    /// Lays the word with the number, whether it was laid before or never.
    pub fn lay(&mut self, start: Start, word: usize, number: u64)
        requires { (start.at ≡ self.old.at) × (self.old.first ≤ word) × (word < self.old.first + length self.old.places) × IsHere (place_at self.old.places (word - self.old.first)) }
        ensures { (self.new.at ≡ self.old.at) × (self.new.first ≡ self.old.first) × (self.new.places ≡ slice_set self.old.places (word - self.old.first) (laid number)) }
    {
        unsafe { start.at.add(word).write(number) }
    }

    /// Lays all the words, those from `from` up to `to`, with the number.
    pub fn fill(&mut self, start: Start, from: usize, to: usize, number: u64)
        requires { (start.at ≡ self.old.at) × (from ≡ self.old.first) × (to ≡ self.old.first + length self.old.places) × AllHere self.old.places }
        ensures { (self.new.at ≡ self.old.at) × (self.new.first ≡ self.old.first) × (self.new.places ≡ laids (replicate (length self.old.places) number)) }
    {
        let mut word = from;
        while word < to {
            self.lay(start, word, number);
            word += 1;
        }
    }

    /// So many words from the word `from` on, each of them laid.
    pub fn slice(&self, start: Start, from: usize, len: usize) -> &[u64]
        requires { (start.at ≡ self.now.at) × (self.now.first ≤ from) × IsLaidRun self.now.places (from - self.now.first) len }
        ensures { run self.now.places (from - self.now.first) len ≡ laids result.now }
    {
        unsafe { slice::from_raw_parts(start.at.add(from), len) }
    }

    /// A word that was laid.
    pub fn word(&self, start: Start, word: usize) -> u64
        requires { (start.at ≡ self.now.at) × (self.now.first ≤ word) × IsLaid self.now.places (word - self.now.first) }
        ensures { place_at self.now.places (word - self.now.first) ≡ laid result }
    {
        self.slice(start, word, 1)[0]
    }

    /// All the words, each of them laid.
    pub fn slice_mut(&mut self, start: Start, first: usize, len: usize) -> &mut [u64]
        requires { (start.at ≡ self.old.at) × (first ≡ self.old.first) × (len ≡ length self.old.places) × ((ns : List ℕ) × (self.old.places ≡ laids ns)) }
        ensures* writes_back { sem 𝓛 (lends_words self.entry result) }
        ensures value { self.old.places ≡ laids result.now }
    {
        unsafe { slice::from_raw_parts_mut(start.at.add(first), len) }
    }

    /// The first `_count` words, and the others.
    pub fn split(self, _count: usize) -> (PlainWords, PlainWords)
        requires { _count ≤ length self.places }
        ensures first { (result.0.at ≡ self.at) × (result.0.first ≡ self.first) × (result.0.places ≡ take _count self.places) }
        ensures others { (result.1.at ≡ self.at) × (result.1.first ≡ self.first + _count) × (result.1.places ≡ drop _count self.places) }
    {
        let PlainWords { mark: _ } = self;
        (
            PlainWords { mark: PhantomData },
            PlainWords { mark: PhantomData },
        )
    }

    /// These words, and those that lie right behind them.
    pub fn join(self, others: PlainWords) -> PlainWords
        requires { (others.at ≡ self.at) × (others.first ≡ self.first + length self.places) }
        ensures { (result.at ≡ self.at) × (result.first ≡ self.first) × (result.places ≡ self.places ++ others.places) }
    {
        let PlainWords { mark: _ } = self;
        let PlainWords { mark: _ } = others;
        PlainWords { mark: PhantomData }
    }

    /// Words that were out are here again, as they are now.
    pub fn restore(&mut self, piece: PlainWords)
        requires { (piece.at ≡ self.old.at) × (self.old.first ≤ piece.first) × (piece.first + length piece.places ≤ self.old.first + length self.old.places) }
        ensures { (self.new.at ≡ self.old.at) × (self.new.first ≡ self.old.first) × (self.new.places ≡ put self.old.places (piece.first - self.old.first) piece.places) }
    {
        let PlainWords { mark: _ } = piece;
    }
}
