//! A page: the words of a block, cut into pieces of one size.

ghost use Rattle.std.specs.Prelude.{◌≡◌, ◌<◌, ◌+◌, ◌/◌, length};
ghost use Rattle.memory_cache.specs.declared.page.TheConstants.{SCALE};
ghost use Rattle.memory_cache.specs.Chains.{IsChain};
ghost use Rattle.memory_cache.specs.Sizes.{size_number};

use crate::piece::Piece;
use crate::sizes::size_number;
use heap_geometry::limits::UNIT_WORDS;
use heap_geometry::need::Need;
use live_heap::plain::Memory;
use plain_words::PlainWords;
use std::alloc::Global;
use std::mem::replace;

/// Stands for no page.
pub(crate) const NONE: u32 = u32::MAX;

/// So many times the inverse of a size is a whole number that tells the pieces of a page apart.
const SCALE: u32 = 1 << 22;

/// Where a piece is: out with the caller, or home with the page, where it names the next slot whose piece is home.
#[derive(Drop)]
pub(crate) enum Slot {
    Out,
    Home(PlainWords, u16),
}

/// The words of a block, whose words are out, in pieces of one size, each with a slot; behind the last one the rest.
/// `before` and `behind` are ways to find other pages, and bind nobody.
#[derive(Drop)]
pub(crate) struct Page {
    pub(crate) need: Need,
    /// The number of the size of its pieces.
    pub(crate) kind: u8,
    pub(crate) place: u32,
    pub(crate) size: u32,
    /// The scale by the size, and one more: a product with it finds a piece's number, where a division is slow.
    pub(crate) inverse: u32,
    /// The first slot of the chain of those whose pieces are home.
    pub(crate) head: u16,
    /// How many pieces are home.
    pub(crate) home: u16,
    pub(crate) slots: Vec<Slot>,
    pub(crate) rest: PlainWords,
    /// The pages before and behind it in the ring of those of its size that have pieces.
    pub(crate) before: u32,
    pub(crate) behind: u32,
    pub(crate) ghost scaled: { inverse ≡ SCALE / size + 1 },
    pub(crate) ghost numbered: { kind ≡ size_number size },
    pub(crate) ghost kinds: { kind < 35 },
    pub(crate) ghost few: { length slots.items < 2048 },
    pub(crate) ghost chained: { ∥ IsChain home head slots.items ∥₁ },
}

impl Page {
    ghost use Rattle.std.specs.Prelude.{ℕ, ◌≡◌, ◌≢◌, ◌<◌, ◌*◌, ◌+◌, ◌^◌, true, false, IfOk, IfSome, None, length};
    ghost use Rattle.std.specs.Result.{IfErr};
    ghost use Rattle.live_heap.specs.Heaps.{HeapFields};
    ghost use Rattle.memory_cache.specs.Pages.{AllHome, AllOut, HasTwoHome, IsCut, IsNear, IsOutAs, IsOutAt, IsPage, IsPageFor, Pops, Pushes, count_of, slot_at};
    ghost use Rattle.memory_cache.specs.declared.page.Slot.TheVariants.{Out};
    ghost use Rattle.memory_cache.specs.Rooms.{IsRoomOf};

    /// Memory, cut into as many pieces as it has room for, all of them home. It comes back where there is no memory for
    /// their slots.
    pub(crate) fn cut(alloc: Global, memory: Memory, size: u32) -> Result<Page, Memory>
        ghost h: { HeapFields }
        requires room { IsRoomOf h memory }
        requires size { IsPageFor size memory.block.place memory.block.need }
        ensures page { IfOk result (λ page. IsPage h page × IsCut memory size page) }
        ensures back { IfErr result (λ back. back ≡ memory) }
    {
        let place = memory.place();
        let need = memory.need();
        let count = memory.usable_words() / size;
        let Ok(mut slots) = Vec::with_capacity(alloc, count as usize) else {
            return Err(memory);
        };
        let mut rest = memory.into_words();
        for number in 0..count as u16 {
            let (piece, others) = rest.split(size as usize);
            rest = others;
            slots.push_reserved(Slot::Home(piece, number + 1));
        }
        Ok(Page {
            place,
            need,
            size,
            kind: size_number(size) as u8,
            inverse: SCALE / size + 1,
            slots,
            rest,
            head: 0,
            home: count as u16,
            before: NONE,
            behind: NONE,
        })
    }

    /// Takes the first piece of the chain.
    #[inline(always)]
    pub(crate) fn pop(&mut self) -> Option<Piece>
        ensures given { IfSome result (λ piece. Pops self.old piece self.new) }
        ensures ready { IfSome result (λ _. slot_at self.old self.old.head ≢ Out) }
        ensures none { result ≡ None → (slot_at self.old self.old.head ≡ Out) × AllOut self.old × (self.new ≡ self.old) }
    {
        if self.has_none() {
            return None;
        }
        Some(self.pop_first())
    }

    /// Takes the first piece of the chain, which has one.
    #[inline(always)]
    pub(crate) fn pop_first(&mut self) -> Piece
        requires home { slot_at self.old self.old.head ≢ Out }
        ensures { Pops self.old result self.new }
    {
        let number = self.head;
        let Slot::Home(words, next) = replace(&mut self.slots[number as usize], Slot::Out) else {
            unreachable!()
        };
        self.head = next;
        self.home -= 1;
        Piece {
            first: self.first_of(number),
            size: self.size,
            words,
        }
    }

    /// Takes the piece with this number back, which is out.
    #[inline(always)]
    pub(crate) fn push(&mut self, number: u16, piece: Piece)
        requires out { IsOutAs self.old number piece.first }
        ensures { Pushes self.old piece self.new }
    {
        self.slots[number as usize] = Slot::Home(piece.words, self.head);
        self.head = number;
        self.home += 1;
    }

    /// Whether no piece is home.
    #[inline(always)]
    pub(crate) fn has_none(&self) -> bool
        ensures yes { result ≡ true → AllOut self.now }
        ensures no { result ≡ false → slot_at self.now self.now.head ≢ Out }
    {
        self.home == 0
    }

    /// Whether each piece is home.
    #[inline(always)]
    pub(crate) fn is_whole(&self) -> bool
        ensures yes { result ≡ true → AllHome self.now }
        ensures no { result ≡ false → (number : ℕ) × (number < count_of self.now) × (slot_at self.now number ≡ Out) }
    {
        self.home as usize == self.slots.len()
    }

    /// The block's words again, where each piece is home.
    pub(crate) fn into_memory(self) -> Memory
        ghost h: { HeapFields }
        requires page { IsPage h self }
        requires home { AllHome self }
        ensures room { IsRoomOf h result }
        ensures block { (result.block.place ≡ self.place) × (result.block.need ≡ self.need) }
    {
        let Page {
            place,
            need,
            size: _,
            mut slots,
            rest,
            ..
        } = self;
        let mut words = rest;
        while let Some(slot) = slots.pop() {
            let Slot::Home(piece, _) = slot else {
                unreachable!()
            };
            words = piece.join(words);
        }
        Memory::of_words(place, need, words)
    }

    /// The first word of the piece with this number.
    #[inline(always)]
    fn first_of(&self, number: u16) -> usize
        ensures { result ≡ self.now.place + number * self.now.size + 1 }
    {
        self.place as usize + number as usize * self.size as usize + 1
    }

    /// The number of the piece whose first word this is, and that is out.
    #[inline(always)]
    pub(crate) fn number_of(&self, first: usize) -> u16
        requires near { IsNear self.now }
        requires out { IsOutAt self.now first }
        ensures { IsOutAs self.now result first }
    {
        self.pieces_in(first - self.first_of(0)) as u16
    }

    /// The number of the piece whose first word this is, where that is out.
    #[inline(always)]
    pub(crate) fn number_out(&self, first: usize) -> Option<u16>
        requires near { IsNear self.now }
        ensures out { IfSome result (λ number. IsOutAs self.now number first) }
        ensures none { result ≡ None → ¬ IsOutAt self.now first }
    {
        let start = self.first_of(0);
        if first < start || first - start >= UNIT_WORDS as usize {
            return None;
        }
        let number = self.pieces_in(first - start);
        if number * self.size as usize != first - start {
            return None;
        }
        match self.slots.get(number)? {
            Slot::Out => Some(number as u16),
            Slot::Home(_, _) => None,
        }
    }

    /// How many pieces so many words are, where they are whole ones.
    #[inline(always)]
    fn pieces_in(&self, words: usize) -> usize
        requires near { words < 2048 }
        ensures whole { (number : ℕ) → 0 < self.now.size → words ≡ number * self.now.size → result ≡ number }
        ensures few { result < 2 ^ 32 }
    {
        words * self.inverse as usize / SCALE as usize
    }

    /// Whether two pieces or more are home.
    #[inline(always)]
    pub(crate) fn has_two(&self) -> bool
        ensures yes { result ≡ true → slot_at self.now self.now.head ≢ Out }
        ensures no { result ≡ false → ¬ HasTwoHome self.now }
    {
        self.home > 1
    }
}
