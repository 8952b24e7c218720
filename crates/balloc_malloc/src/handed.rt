//! Words that go to C by a bare pointer.

ghost use Rattle.std.specs.Prelude.{◌≡◌, Option, Some, None};
ghost use Rattle.std.specs.Coded.{coded_option};
ghost use Rattle.std.specs.Ptr.{ptr_add};
ghost use Rattle.std.specs.Borrow.{u64};
ghost use denote.RawPtr.{null_ptr};
ghost use Rattle.plain_words.specs.contracts.plain.PlainWords.{the_row};
ghost use Rattle.plain_words.specs.declared.plain.PlainWords.{PlainWords as Words};
ghost use Rattle.balloc_malloc.specs.Handing.{words_own};

use plain_words::{PlainWords, Start};
use std::marker::Model;

/// The words of a block, or none, and the code of the call that gives them. Whoever has this has the words; `memory`
/// points to the first of them. One that is dropped leaves them to nobody.
#[derive(Drop)]
pub struct Handed {
    pub memory: *mut u64,
    pub code: u32,
    pub ghost words: { Option Words } by { coded_option the_row.coded },
}

impl Model for Handed {
    ghost also_owns = { λ h. words_own h.words };
}

impl Handed {
    /// Words, with the code of the call that gives them.
    pub fn of_words(words: PlainWords, start: Start, first: usize, code: u32) -> Handed
        requires { (start.at ≡ words.at) × (first ≡ words.first) }
        ensures { (result.memory ≡ ptr_add u64 words.first words.at) × (result.code ≡ code) × (result.words ≡ Some words) }
    {
        let PlainWords { mark: _ } = words;
        let memory = unsafe { start.at.add(first) };
        Handed { memory, code }
    }

    /// No words, and the code that tells why.
    pub fn none(code: u32) -> Handed
        ensures { (result.memory ≡ null_ptr) × (result.code ≡ code) × (result.words ≡ None) }
    {
        Handed {
            memory: std::ptr::null_mut(),
            code,
        }
    }
}
