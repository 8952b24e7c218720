//! Words that came back from C, or none.

ghost use Rattle.std.specs.Prelude.{◌≡◌, Option, Some, None};
ghost use Rattle.std.specs.Coded.{coded_option};
ghost use Rattle.plain_words.specs.contracts.plain.PlainWords.{the_row};
ghost use Rattle.plain_words.specs.declared.plain.PlainWords.{PlainWords as Words};
ghost use Rattle.balloc_malloc.specs.Handing.{words_own};

use plain_words::PlainWords;
use std::marker::{Model, PhantomData};

/// What takes no bytes.
#[repr(C)]
#[derive(Drop)]
pub struct Mark {}

/// Words, or none. It has no bytes. One that is dropped leaves them to nobody.
#[repr(C)]
#[derive(Drop)]
pub struct Held {
    mark: Mark,
    pub ghost words: { Option Words } by { coded_option the_row.coded },
}

impl Model for Held {
    ghost also_owns = { λ h. words_own h.words };
}

unsafe impl Send for Held {}

impl Held {
    /// No words.
    pub fn none() -> Held
        ensures { result.words ≡ None }
    {
        Held { mark: Mark {} }
    }

    /// Words that came back.
    pub fn of_words(words: PlainWords) -> Held
        ensures { result.words ≡ Some words }
    {
        let PlainWords { mark: _ } = words;
        Held { mark: Mark {} }
    }

    /// Its words.
    pub fn into_words(self) -> PlainWords
        requires { (words : Words) × (self.words ≡ Some words) }
        ensures { self.words ≡ Some result }
    {
        let Held { mark: _ } = self;
        PlainWords { mark: PhantomData }
    }
}
