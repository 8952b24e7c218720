//! Bundles of memory that goes back to another thread's seat.

ghost use Rattle.std.specs.Prelude.{◌≡◌, ◌<◌, ◌≤◌, ◌++◌, ◌∷◌, [], IfSome, None, length};
ghost use Rattle.balloc_malloc.specs.Entries.{AreFull};

use crate::entry::Entry;
use crate::held::Held;
use crate::seat::crosses;
use plain_words::PlainWords;

/// How many pieces a bundle has room for.
pub const ROOM: usize = 32;

/// Pieces of memory, at most 32. C has it, and never copies it; all bytes zero are none.
#[repr(C)]
#[derive(Drop)]
pub struct Bundle {
    count: usize,
    entries: [Entry; ROOM],
    ghost room: { length entries ≡ 32 },
    ghost few: { count ≤ 32 },
    ghost full: { AreFull count entries },
}

impl Bundle {
    ghost use Rattle.balloc_malloc.specs.Bundles.{bundled};
    ghost use Rattle.balloc_malloc.specs.Entries.{entry};

    /// How many pieces it has.
    #[inline(always)]
    pub fn count(&self) -> usize
        ensures { result ≡ length (bundled self.now) }
    {
        self.count
    }

    /// Puts a piece behind the others.
    #[inline(always)]
    pub fn put(&mut self, words: PlainWords, first: u32, size: u32)
        requires { self.old.count < 32 }
        ensures { bundled self.new ≡ bundled self.old ++ entry first size words ∷ [] }
    {
        self.entries[self.count] = Entry {
            first,
            size,
            words: Held::of_words(words),
        };
        self.count += 1;
    }

    /// Takes the last piece out.
    #[inline(always)]
    pub fn pop(&mut self) -> Option<(u32, u32, PlainWords)>
        ensures some { IfSome result (λ x. bundled self.old ≡ bundled self.new ++ entry x.0 x.1 x.2 ∷ []) }
        ensures none { result ≡ None → (bundled self.old ≡ []) × (bundled self.new ≡ []) }
    {
        if self.count == 0 {
            return None;
        }
        self.count -= 1;
        let Entry { first, size, words } = std::mem::replace(
            &mut self.entries[self.count],
            Entry {
                first: 0,
                size: 0,
                words: Held::none(),
            },
        );
        Some((first, size, words.into_words()))
    }
}

/// A bundle may go to another thread: that is what it is for.
pub fn bundles_cross() {
    crosses::<Bundle>();
}
