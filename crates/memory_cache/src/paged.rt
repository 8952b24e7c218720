//! A paged cache: pages of equal pieces in front of a memory cache.

ghost use Rattle.std.specs.Prelude.{ℕ, ◌≡◌, ◌≢◌, ◌<◌, ◌≤◌, ◌+◌, ◌-◌, ◌%◌, ◌/◌, ◌^◌, ◌⊎◌, [], true, false, IfOk, IfSome, IsSome, IsSomeAnd, Ok, Some, None, length, min, slice_index};
ghost use Rattle.std.specs.Result.{IfErr};
ghost use Rattle.heap_geometry.specs.declared.limits.TheConstants.{LARGE_MOST};
ghost use Rattle.errand_steps.specs.Begins.{IsBusy, IsIdle};
ghost use Rattle.live_heap.specs.Heaps.{HeapFields};
ghost use Rattle.live_heap.specs.Holdings.{HoldsExactly};
ghost use Rattle.live_heap.specs.Passes.{IsOf};
ghost use Rattle.memory_cache.specs.declared.page.Page.{Page};
ghost use Rattle.memory_cache.specs.declared.page.Slot.TheVariants.{Out};
ghost use Rattle.memory_cache.specs.Caches.{kept_in};
ghost use Rattle.memory_cache.specs.Paged.{ActsBehind, CameOf, GoesBehind, HasCut, HasNewPage, HasPieceReady, HasPut, HasSameOut, HasSamePages, HasTold, HasTwoReady, IsIn, IsLastOut, IsOut, IsOutBy, IsPaged, IsReadyAt, IsWholeAt, LiesElsewhere, PopsAt, PushesAt, SamePages, TakesBack, page_at};
ghost use Rattle.memory_cache.specs.Pages.{AllHome, HasTwoHome, IsOutAs, IsPageFor, IsPiece, slot_at};
ghost use Rattle.memory_cache.specs.Rooms.{IsRoomOf};
ghost use Rattle.memory_cache.specs.Settled.{IsSettled};
ghost use Rattle.memory_cache.specs.Sizes.{page_words, piece_words, size_number};

use crate::cache::MemoryCache;
use crate::page::{NONE, Page};
use crate::piece::Piece;
use crate::sizes::{SIZES, page_words, piece_words, size_number, sized};
use block_cache::cache::CacheRefused;
use heap_geometry::limits::UNIT_WORDS;
use live_heap::answers::AllocAnswer;
use live_heap::heap::Heap;
use live_heap::pass::Pass;
use live_heap::plain::Memory;
use std::alloc::{AllocError, Global};

/// A memory cache with pages before it: each page is a block of the largest class, or a run of units, cut into pieces of
/// one size. What a caller gives back is a piece that is home in its page, and is given again without a step.
///
/// A page lies at a multiple of 2,048 words, and no other one does within as many words: that is its place in the table.
#[derive(Drop)]
pub struct PagedCache {
    pub(crate) cache: MemoryCache,
    pub(crate) pages: Vec<Option<Page>>,
    /// For each size a page that has pieces, the first of a list; where it has none, no page.
    pub(crate) ready: [u32; SIZES],
    pub(crate) hits: u64,
    pub(crate) alloc: Global,
}

impl PagedCache {
    /// A paged cache with no page, in front of the pass; blocks whose pieces are all home are kept in magazines for so many
    /// of a class.
    pub fn open(alloc: Global, pass: Pass, depth: u16) -> Result<PagedCache, CacheRefused>
        ensures paged { IfOk result (λ paged. (h : HeapFields) → IsSettled h pass → HoldsExactly pass [] → IsPaged h paged) }
        ensures pass { IfOk result (λ paged. paged.cache.pass ≡ pass) }
        ensures empty { IfOk result (λ paged. (first size : ℕ) → ¬ IsOut paged first size) }
        ensures kept { IfOk result (λ paged. kept_in paged.cache ≡ []) }
        ensures depth { IfOk result (λ paged. paged.cache.magazines.depth ≡ depth) }
        ensures hits { IfOk result (λ paged. paged.hits ≡ 0) }
        ensures refused { IfErr result (λ refused. refused.pass ≡ pass) }
    {
        let cache = MemoryCache::open(alloc, pass, depth)?;
        Ok(PagedCache {
            cache,
            pages: Vec::new(alloc),
            ready: [NONE; SIZES],
            hits: 0,
            alloc,
        })
    }

    /// Memory of at least so many words; some of them may never have been written. Where a page of their size is ready
    /// it is a piece of that, without a step; else a block is cut for it. Where it is Busy a later `take`, `give` or `close`
    /// goes on.
    #[inline(always)]
    pub fn take(
        &mut self,
        heap: &Heap,
        words: u32,
        tries: u32,
    ) -> Result<AllocAnswer<Piece>, AllocError>
        requires paged { IsPaged heap.now self.old }
        requires words { words ≤ LARGE_MOST }
        requires tries { 0 < tries }
        ensures paged { IsPaged heap.now self.new }
        ensures caller { self.new.cache.pass.errand.caller ≡ self.old.cache.pass.errand.caller }
        ensures given { (piece : Piece) → result ≡ Ok (AllocAnswer.Given piece)
            → IsPiece heap.now piece × (piece.size ≡ piece_words words) × (words ≤ piece.size) × IsOut self.new piece.first piece.size }
        ensures aligned { (piece : Piece) → result ≡ Ok (AllocAnswer.Given piece) → piece.first % 2 ≡ 1 }
        ensures fresh { (piece : Piece) (size : ℕ) → result ≡ Ok (AllocAnswer.Given piece) → ¬ IsOut self.old piece.first size }
        ensures keeps { (first size : ℕ) → IsOut self.old first size → IsOut self.new first size }
        ensures only { (first size : ℕ) → IsOut self.new first size → LiesElsewhere result first → IsOut self.old first size }
        ensures served { HasPieceReady self.old (piece_words words)
            → ((piece : Piece) × (result ≡ Ok (AllocAnswer.Given piece))) × (self.new.cache ≡ self.old.cache) }
        ensures new { (piece : Piece) → result ≡ Ok (AllocAnswer.Given piece) → (¬ HasPieceReady self.old (piece_words words))
            → HasNewPage heap.now self.old words tries piece.first self.new }
        ensures cause { IfOk result (λ told. CameOf heap.now self.old.cache.pass (page_words words) tries told self.new.cache.pass) }
        ensures hits { HasPieceReady self.old (piece_words words) → self.new.hits ≡ (self.old.hits + 1) % 2 ^ 64 }
        ensures no_hit { (¬ HasPieceReady self.old (piece_words words)) → self.new.hits ≡ self.old.hits }
    {
        match self.take_ready(heap, words) {
            Some(piece) => Ok(AllocAnswer::Given(piece)),
            None => self.take_page(heap, words, tries),
        }
    }

    /// What `take_ready` gives of a page that has another piece behind it, by the shortest way: who gets none asks that next.
    #[inline(always)]
    pub fn take_spare(&mut self, heap: &Heap, words: u32) -> Option<Piece>
        requires paged { IsPaged heap.now self.old }
        requires words { words ≤ LARGE_MOST }
        ensures paged { IsPaged heap.now self.new }
        ensures told { IfSome result (λ piece. (tries : ℕ) → HasTold heap.now self.old words tries (Ok (AllocAnswer.Given piece)) self.new) }
        ensures ready { IfSome result (λ _. HasPieceReady self.old (piece_words words)) }
        ensures page { IfSome result (λ piece. IsIn self.old piece.first piece.size) }
        ensures cache { self.new.cache ≡ self.old.cache }
        ensures hits { IfSome result (λ _. self.new.hits ≡ (self.old.hits + 1) % 2 ^ 64) }
        ensures serves { HasTwoReady self.old (piece_words words) → IsSome result }
        ensures none { result ≡ None → self.new ≡ self.old }
    {
        let (size, number) = sized(words);
        let place = self.ready[number] as usize;
        if !self.has_two(place, size) {
            return None;
        }
        let (piece, _) = pop_from(&mut self.pages[place]);
        self.hits = self.hits.wrapping_add(1);
        Some(piece)
    }

    /// Whether the page in this place of the table is ready with two pieces of this size, or more.
    #[inline(always)]
    fn has_two(&self, place: usize, size: u32) -> bool
        ensures yes { result ≡ true → IsReadyAt self.now place size }
        ensures no { result ≡ false → (page : Page) → page_at self.now place ≡ Some page → page.size ≡ size → ¬ HasTwoHome page }
    {
        match self.pages.get(place) {
            Some(Some(page)) => page.size == size && page.has_two(),
            _ => false,
        }
    }

    /// What `take` gives of a page that is ready, for who has a way of its own where none is: then nothing has changed.
    #[inline(always)]
    pub fn take_ready(&mut self, heap: &Heap, words: u32) -> Option<Piece>
        requires paged { IsPaged heap.now self.old }
        requires words { words ≤ LARGE_MOST }
        ensures paged { IsPaged heap.now self.new }
        ensures told { IfSome result (λ piece. (tries : ℕ) → HasTold heap.now self.old words tries (Ok (AllocAnswer.Given piece)) self.new) }
        ensures ready { IfSome result (λ _. HasPieceReady self.old (piece_words words)) }
        ensures page { IfSome result (λ piece. IsIn self.old piece.first piece.size) }
        ensures cache { self.new.cache ≡ self.old.cache }
        ensures hits { IfSome result (λ _. self.new.hits ≡ (self.old.hits + 1) % 2 ^ 64) }
        ensures serves { HasPieceReady self.old (piece_words words) → IsSome result }
        ensures none { result ≡ None → self.new ≡ self.old }
    {
        let (size, number) = sized(words);
        let key = self.ready[number];
        if !self.is_ready(key as usize, size) {
            return None;
        }
        let piece = self.pop_ready(key, number, size);
        self.hits = self.hits.wrapping_add(1);
        Some(piece)
    }

    /// Whether the page in this place of the table is ready with pieces of this size.
    #[inline(always)]
    fn is_ready(&self, place: usize, size: u32) -> bool
        ensures yes { result ≡ true → IsReadyAt self.now place size }
        ensures no { result ≡ false → (page : Page) → page_at self.now place ≡ Some page → page.size ≡ size → slot_at page page.head ≡ Out }
    {
        match self.pages.get(place) {
            Some(Some(page)) => page.size == size && !page.has_none(),
            _ => false,
        }
    }

    /// A piece of the page in this place of the table, which is ready. One that has no other leaves its list.
    #[inline(always)]
    fn pop_ready(&mut self, key: u32, number: usize, _size: u32) -> Piece
        requires ready { IsReadyAt self.old key _size }
        requires number { number < 35 }
        ensures put { HasPut self.old result self.new }
        ensures size { result.size ≡ _size }
        ensures hits { self.new.hits ≡ self.old.hits }
    {
        let (piece, is_last) = pop_from(&mut self.pages[key as usize]);
        if is_last {
            self.unlink(key, number);
        }
        piece
    }

    /// A piece of a new page.
    #[inline(never)]
    fn take_page(
        &mut self,
        heap: &Heap,
        words: u32,
        tries: u32,
    ) -> Result<AllocAnswer<Piece>, AllocError>
        ghost h: { HeapFields }
        requires heap { heap.now ≡ h }
        requires paged { IsPaged h self.old }
        requires words { words ≤ LARGE_MOST }
        requires tries { 0 < tries }
        ensures told { HasTold h self.old words tries result self.new }
        ensures new { (piece : Piece) → result ≡ Ok (AllocAnswer.Given piece) → HasNewPage h self.old words tries piece.first self.new }
        ensures hits { self.new.hits ≡ self.old.hits }
    {
        match self.cache.take(heap, page_words(words), tries) {
            AllocAnswer::Given(memory) => match self.cut(memory, piece_words(words)) {
                Ok(piece) => Ok(AllocAnswer::Given(piece)),
                Err(memory) => {
                    let _ = self.cache.give(heap, memory, tries);
                    Err(AllocError)
                }
            },
            AllocAnswer::Refused => Ok(AllocAnswer::Refused),
            AllocAnswer::TooLarge => Ok(AllocAnswer::TooLarge),
            AllocAnswer::Spent => Ok(AllocAnswer::Spent),
            AllocAnswer::Busy => Ok(AllocAnswer::Busy),
        }
    }

    /// Cuts a page of memory that no page has, and gives its first piece. The memory comes back where there is none for the
    /// page itself.
    fn cut(&mut self, memory: Memory, size: u32) -> Result<Piece, Memory>
        ghost h: { HeapFields }
        requires room { IsRoomOf h memory }
        requires page { IsPageFor size memory.block.place memory.block.need }
        ensures cut { IfOk result (λ piece. HasCut h self.old memory piece self.new × (piece.size ≡ size)) }
        ensures back { IfErr result (λ back. (back ≡ memory) × HasSamePages self.old self.new) }
        ensures hits { self.new.hits ≡ self.old.hits }
    {
        let key = memory.place() / UNIT_WORDS;
        if self.grow(key as usize).is_err() {
            return Err(memory);
        }
        let mut page = Page::cut(self.alloc, memory, size)?;
        let Some(piece) = page.pop() else {
            unreachable!()
        };
        let home = page.home;
        self.pages[key as usize] = Some(page);
        if home > 0 {
            self.link(key, size_number(size));
        }
        Ok(piece)
    }

    /// Makes the table so long that it has this place.
    fn grow(&mut self, key: usize) -> Result<(), AllocError>
        ensures long { IfOk result (λ _. key < length self.new.pages.items) }
        ensures same { HasSamePages self.old self.new }
        ensures hits { self.new.hits ≡ self.old.hits }
    {
        while self.pages.len() <= key {
            self.pages.push(None)?;
        }
        Ok(())
    }

    /// Takes a piece back that is out. A page whose pieces are all home goes back to the magazines, or its block to the
    /// heap, unless it is the one that is ready.
    #[inline(always)]
    pub fn give(&mut self, heap: &Heap, piece: Piece, tries: u32)
        requires paged { IsPaged heap.now self.old }
        requires piece { IsPiece heap.now piece }
        requires out { IsOut self.old piece.first piece.size }
        requires tries { 0 < tries }
        ensures paged { IsPaged heap.now self.new }
        ensures caller { self.new.cache.pass.errand.caller ≡ self.old.cache.pass.errand.caller }
        ensures keeps { (first size : ℕ) → IsOut self.old first size → first ≢ piece.first → IsOut self.new first size }
        ensures only { (first size : ℕ) → IsOut self.new first size → IsOut self.old first size × (first ≢ piece.first) }
        ensures behind { GoesBehind heap.now self.old (piece.first / 2048) tries self.new }
        ensures sends { IsLastOut self.old piece.first → ActsBehind heap.now self.old (piece.first / 2048) tries self.new }
        ensures hits { self.new.hits ≡ self.old.hits }
    {
        let number = self.number_of(piece.first, piece.size);
        self.put(heap, number, piece, tries);
    }

    /// Takes a piece back where it is out, as `give` does. Else it comes back, and nothing has changed.
    #[inline(always)]
    pub fn take_back(&mut self, heap: &Heap, piece: Piece, tries: u32) -> Result<(), Piece>
        requires paged { IsPaged heap.now self.old }
        requires piece { IsPiece heap.now piece }
        requires tries { 0 < tries }
        ensures paged { IsPaged heap.now self.new }
        ensures caller { self.new.cache.pass.errand.caller ≡ self.old.cache.pass.errand.caller }
        ensures out { IfOk result (λ _. IsOut self.old piece.first piece.size) }
        ensures keeps { (first size : ℕ) → IsOut self.old first size → first ≢ piece.first → IsOut self.new first size }
        ensures only { IfOk result (λ _. (first size : ℕ) → IsOut self.new first size → IsOut self.old first size × (first ≢ piece.first)) }
        ensures behind { GoesBehind heap.now self.old (piece.first / 2048) tries self.new }
        ensures sends { IfOk result (λ _. IsLastOut self.old piece.first → ActsBehind heap.now self.old (piece.first / 2048) tries self.new) }
        ensures hits { self.new.hits ≡ self.old.hits }
        ensures stray { IfErr result (λ back. (back ≡ piece) × (self.new ≡ self.old) × (¬ IsOut self.old piece.first piece.size)) }
    {
        let Some(number) = self.number_out(piece.first, piece.size) else {
            return Err(piece);
        };
        self.put(heap, number, piece, tries);
        Ok(())
    }

    /// Takes the piece with this number of its page back, which is out.
    #[inline(always)]
    fn put(&mut self, heap: &Heap, number: u16, piece: Piece, tries: u32)
        requires paged { IsPaged heap.now self.old }
        requires piece { IsPiece heap.now piece }
        requires out { IsOutBy self.old number piece.first piece.size }
        requires tries { 0 < tries }
        ensures back { TakesBack heap.now self.old piece.first self.new }
        ensures behind { GoesBehind heap.now self.old (piece.first / 2048) tries self.new }
        ensures sends { IsLastOut self.old piece.first → ActsBehind heap.now self.old (piece.first / 2048) tries self.new }
        ensures hits { self.new.hits ≡ self.old.hits }
    {
        let place = piece.first / UNIT_WORDS as usize;
        let follows = push_at(&mut self.pages[place], number, piece);
        if let Some((key, number, is_whole)) = follows {
            // The first one of a list stays there.
            if !is_whole || self.ready[number] != key {
                self.settle_page(heap, key, number, is_whole, tries);
            }
        }
    }

    /// What follows where the first piece of a page has come home, or the last one, and another page is the first one.
    #[inline(never)]
    fn settle_page(&mut self, heap: &Heap, key: u32, number: usize, is_whole: bool, tries: u32)
        requires paged { IsPaged heap.now self.old }
        requires number { number < 35 }
        requires tries { 0 < tries }
        ensures same { HasSameOut heap.now self.old self.new }
        ensures behind { GoesBehind heap.now self.old key tries self.new }
        ensures sends { is_whole ≡ true → IsWholeAt self.old key → slice_index self.old.ready number < length self.old.pages.items
            → ActsBehind heap.now self.old key tries self.new }
        ensures hits { self.new.hits ≡ self.old.hits }
    {
        if !is_whole || self.ready[number] as usize >= self.pages.len() {
            self.link(key, number);
            return;
        }
        self.unlink(key, number);
        if !self.release(heap, key as usize, tries) {
            self.link(key, number);
        }
    }

    /// Gives the block of a page back whose pieces are all home. Whether there is no such page any more.
    fn release(&mut self, heap: &Heap, key: usize, tries: u32) -> bool
        ghost h: { HeapFields }
        requires heap { heap.now ≡ h }
        requires paged { IsPaged h self.old }
        requires tries { 0 < tries }
        ensures same { HasSameOut h self.old self.new }
        ensures others { (other : ℕ) → other ≢ key → page_at self.new other ≡ page_at self.old other }
        ensures length { length self.new.pages.items ≡ length self.old.pages.items }
        ensures gone { result ≡ true → page_at self.new key ≡ None }
        ensures behind { GoesBehind h self.old key tries self.new }
        ensures sends { IsWholeAt self.old key → ActsBehind h self.old key tries self.new }
        ensures hits { self.new.hits ≡ self.old.hits }
        ensures stays { result ≡ false → IsBusy self.new.cache.pass.errand ⊎ ((first : ℕ) × (size : ℕ) × IsOut self.new first size) }
    {
        let Some(Some(page)) = self.pages.get(key) else {
            return true;
        };
        if !page.is_whole() || !self.cache.settled(heap, tries) {
            return false;
        }
        let Some(page) = self.pages[key].take() else {
            unreachable!()
        };
        let _ = self.cache.give(heap, page.into_memory(), tries);
        true
    }

    /// The number in its page of the piece of this size with this first word, which is out.
    #[inline(always)]
    fn number_of(&self, first: usize, _size: u32) -> u16
        requires paged { (h : HeapFields) × IsPaged h self.now }
        requires out { IsOut self.now first _size }
        ensures { IsOutBy self.now result first _size }
    {
        let Some(page) = &self.pages[first / UNIT_WORDS as usize] else {
            unreachable!()
        };
        page.number_of(first)
    }

    /// Where a piece of this size with this first word is out, its number in its page.
    #[inline(always)]
    fn number_out(&self, first: usize, size: u32) -> Option<u16>
        requires paged { (h : HeapFields) × IsPaged h self.now }
        ensures out { IfSome result (λ number. IsOutBy self.now number first size) }
        ensures none { result ≡ None → ¬ IsOut self.now first size }
    {
        match self.pages.get(first / UNIT_WORDS as usize) {
            Some(Some(page)) if page.size == size => page.number_out(first),
            _ => None,
        }
    }

    /// Frees what the pages and the magazines have. The pass comes back where nothing is out with it any more; else the
    /// cache.
    pub fn close(mut self, heap: &Heap, tries: u32) -> Result<Pass, PagedCache>
        requires paged { IsPaged heap.now self }
        requires tries { 0 < tries }
        ensures of { IfOk result (λ pass. IsOf heap.now pass × IsIdle pass.errand) }
        ensures nothing { IfOk result (λ pass. HoldsExactly pass [] × (pass.out ≡ 0)) }
        ensures caller { IfOk result (λ pass. pass.errand.caller ≡ self.cache.pass.errand.caller) }
        ensures paged { IfErr result (λ paged. IsPaged heap.now paged) }
        ensures caller_still { IfErr result (λ paged. paged.cache.pass.errand.caller ≡ self.cache.pass.errand.caller) }
        ensures keeps { IfErr result (λ paged. (first size : ℕ) → IsOut self first size → IsOut paged first size) }
        ensures only { IfErr result (λ paged. (first size : ℕ) → IsOut paged first size → IsOut self first size) }
        ensures cause { IfErr result (λ paged. IsBusy paged.cache.pass.errand ⊎ ((first : ℕ) × (size : ℕ) × IsOut paged first size)) }
    {
        for key in 0..self.pages.len() {
            if !self.release(heap, key, tries) {
                return Err(self);
            }
        }
        let PagedCache {
            cache,
            pages,
            ready,
            hits,
            alloc,
        } = self;
        match cache.close(heap, tries) {
            Ok(pass) => Ok(pass),
            Err(cache) => Err(PagedCache {
                cache,
                pages,
                ready,
                hits,
                alloc,
            }),
        }
    }

    /// Lays a page on top of the list of those that are ready with pieces of its size.
    fn link(&mut self, key: u32, number: usize)
        requires { number < 35 }
        ensures same { HasSamePages self.old self.new }
        ensures hits { self.new.hits ≡ self.old.hits }
    {
        let first = self.ready[number];
        self.lay_before(first, key);
        self.lay_before(key, NONE);
        self.lay_behind(key, first);
        self.ready[number] = key;
    }

    /// Takes a page out of that list.
    #[inline(never)]
    fn unlink(&mut self, key: u32, number: usize)
        requires { number < 35 }
        ensures same { HasSamePages self.old self.new }
        ensures hits { self.new.hits ≡ self.old.hits }
    {
        let Some(Some(page)) = self.pages.get(key as usize) else {
            return;
        };
        let before = page.before;
        let behind = page.behind;
        if self.ready[number] == key {
            self.ready[number] = behind;
        } else {
            self.lay_behind(before, behind);
        }
        self.lay_before(behind, before);
        self.lay_before(key, NONE);
        self.lay_behind(key, NONE);
    }

    /// Names the page that lies before another in its list.
    fn lay_before(&mut self, key: u32, before: u32)
        ensures same { HasSamePages self.old self.new }
        ensures hits { self.new.hits ≡ self.old.hits }
    {
        if let Some(place) = self.pages.get_mut(key as usize) {
            with_before(place, before);
        }
    }

    /// Names the page that lies behind another in its list.
    fn lay_behind(&mut self, key: u32, behind: u32)
        ensures same { HasSamePages self.old self.new }
        ensures hits { self.new.hits ≡ self.old.hits }
    {
        if let Some(place) = self.pages.get_mut(key as usize) {
            with_behind(place, behind);
        }
    }

    /// How many takes a page that was ready has served, modulo 2^64.
    pub fn hits(&self) -> u64
        ensures { result ≡ self.now.hits }
    {
        self.hits
    }

    /// How many exchanges the pass has lost, at most 2^64 - 1.
    pub fn lost(&self) -> u64
        ensures { result ≡ self.now.cache.pass.errand.lost }
    {
        self.cache.lost()
    }

    /// How many blocks' words are out with the pass, those in magazines too.
    pub fn out(&self) -> u32
        ensures { result ≡ self.now.cache.pass.out }
    {
        self.cache.out()
    }
}

/// A piece of the page in this place of the table, which has one; and whether none is home behind it.
#[inline(always)]
fn pop_from(place: &mut Option<Page>) -> (Piece, bool)
    requires { (page : Page) × (place.old ≡ Some page) × (slot_at page page.head ≢ Out) }
    ensures { PopsAt place.old result.0 place.new }
{
    let Some(page) = place else { unreachable!() };
    let piece = page.pop_first();
    (piece, page.has_none())
}

/// Takes the piece with this number of the page in this place of the table back. What follows for the page, where something
/// does: its number, that of its size, and whether each of its pieces is home.
#[inline(always)]
fn push_at(place: &mut Option<Page>, number: u16, piece: Piece) -> Option<(u32, usize, bool)>
    requires out { (page : Page) × (place.old ≡ Some page) × IsOutAs page number piece.first }
    ensures pushed { PushesAt place.old piece place.new }
    ensures key { IfSome result (λ told. (page : Page) × (place.old ≡ Some page) × (told.0 ≡ page.place / 2048) × (told.1 ≡ size_number page.size)) }
    ensures number { IfSome result (λ told. told.1 < 35) }
    ensures whole { (page : Page) → place.new ≡ Some page → AllHome page → IsSomeAnd result (λ told. told.2 ≡ true) }
{
    let Some(page) = place else { unreachable!() };
    page.push(number, piece);
    let is_whole = page.is_whole();
    if is_whole || page.home == 1 {
        Some((page.place / UNIT_WORDS, page.kind as usize, is_whole))
    } else {
        None
    }
}

/// The same page, with another before it in its list.
fn with_before(place: &mut Option<Page>, before: u32)
    ensures { SamePages place.old place.new }
{
    if let Some(page) = place {
        page.before = before;
    }
}

/// The same page, with another behind it in its list.
fn with_behind(place: &mut Option<Page>, behind: u32)
    ensures { SamePages place.old place.new }
{
    if let Some(page) = place {
        page.behind = behind;
    }
}
