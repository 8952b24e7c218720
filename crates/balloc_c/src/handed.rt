//! Words that go to C by a bare pointer, and come back.

ghost use Rattle.std.specs.Prelude.{◌≡◌, ◌+◌, Option, Some, None, length};
ghost use Rattle.std.specs.Coded.{coded_option};
ghost use Rattle.std.specs.Ptr.{ptr_add};
ghost use Rattle.std.specs.Borrow.{u64};
ghost use denote.RawPtr.{null_ptr};
ghost use Rattle.plain_words.specs.contracts.plain.PlainWords.{the_row};
ghost use Rattle.plain_words.specs.Owned.{Lies};
ghost use Rattle.plain_words.specs.declared.plain.PlainWords.{PlainWords as Words};
ghost use Rattle.balloc_c.specs.Handing.{words_own};

use plain_words::{PlainWords, Start};
use std::marker::{Model, PhantomData};

/// The words of a block, or none, where its memory begins, and the code of the call that they come from or go to. Whoever
/// has this has the words. One that is dropped leaves them to nobody.
#[derive(Drop)]
pub struct Handed {
    pub memory: *mut u64,
    pub code: u32,
    pub ghost words: { Option Words } by { coded_option the_row.coded },
}

impl Model for Handed {
    ghost also_owns = { λ h. words_own h.words };
}

impl Handed {
    /// Words that go out.
    pub fn of_words(words: PlainWords, start: Start, first: usize, code: u32) -> Handed
        requires { (start.at ≡ words.at) × (first ≡ words.first) }
        ensures { (result.memory ≡ ptr_add u64 words.first words.at) × (result.code ≡ code) × (result.words ≡ Some words)
            × Lies words.at (words.first + length words.places) }
    {
        let PlainWords { mark: _ } = words;
        let memory = unsafe { start.at.add(first) };
        Handed { memory, code }
    }

    /// No words, and where memory begins whose words are out already.
    pub fn again(start: Start, first: usize, code: u32) -> Handed
        requires { Lies start.at first }
        ensures { (result.memory ≡ ptr_add u64 first start.at) × (result.code ≡ code) × (result.words ≡ None) }
    {
        let memory = unsafe { start.at.add(first) };
        Handed { memory, code }
    }

    /// No words.
    pub fn none(code: u32) -> Handed
        ensures { (result.memory ≡ null_ptr) × (result.code ≡ code) × (result.words ≡ None) }
    {
        Handed {
            memory: std::ptr::null_mut(),
            code,
        }
    }

    /// Words that came back.
    pub fn into_words(self) -> PlainWords
        requires { (words : Words) × (self.words ≡ Some words) }
        ensures { self.words ≡ Some result }
    {
        let Handed { memory: _, code: _ } = self;
        PlainWords { mark: PhantomData }
    }
}
