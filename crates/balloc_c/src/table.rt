//! The table of a pass's blocks. A number names a slot, and how often that slot has given a block away.

ghost use Rattle.std.specs.Prelude.{ℕ, ◌≡◌, ◌≢◌, ◌<◌, ◌≤◌, ◌+◌, ◌%◌, ◌^◌, [], length, None, Some, false, IfOk, IfSome, true};
ghost use Rattle.std.specs.Result.{IfErr};
ghost use Rattle.heap_geometry.specs.Need.{need_of};
ghost use Rattle.heap_geometry.specs.declared.limits.TheConstants.{CLASSES, LARGE_MOST};
ghost use Rattle.heap_geometry.specs.declared.need.Need.TheVariants.{Small};
ghost use Rattle.live_heap.specs.declared.block.Block.{Block};
ghost use Rattle.live_heap.specs.declared.plain.Memory.{Memory};
ghost use Rattle.balloc_c.specs.declared.kept.Kept.TheVariants as kept;
ghost use Rattle.balloc_c.specs.declared.lent.LentBlock.{LentBlock as Out};
ghost use Rattle.balloc_c.specs.declared.refusal.Refusal.TheVariants as refusal;
ghost use Rattle.balloc_c.specs.declared.table.TheConstants.{NONE};

use crate::kept::{Content, Kept};
use crate::laid::Laid;
use crate::lent::LentBlock;
use crate::refusal::Refusal;
use heap_geometry::need::{Need, class_of};
use live_heap::block::Block;
use live_heap::plain::Memory;
use plain_words::PlainWords;
use std::alloc::Global;

/// No slot has this index.
const NONE: u32 = 0xffff_ffff;

/// No block is given under this number: no slot has its lower half as its index.
const NOTHING: u64 = 0xffff_ffff;

/// Whether blocks of this class serve it.
#[inline(always)]
fn is_small(need: Need, class: u8) -> bool
    ensures yes { result ≡ true → need ≡ Small class }
    ensures no { result ≡ false → need ≢ Small class }
{
    match need {
        Need::Small(own) => own == class,
        _ => false,
    }
}

/// A slot for a block.
#[derive(Drop)]
pub struct Slot {
    content: Content,
    /// How often the slot has given a block away, modulo 2^32.
    age: u32,
    /// The slot that was spare before this one.
    next: u32,
    /// Where the pass keeps its block, the number under which one of its class is given after it.
    after: u64,
}

impl Slot {
    ghost use Rattle.balloc_c.specs.Kept.{block_of, kept_in, memory_of};

    /// Its block, whose words are home, rests here, and no number names it any more.
    #[inline(always)]
    fn rest(&mut self, after: u64)
        requires { (block : Block) × (kept_in self.old.content ≡ Some (kept.Home block)) }
        ensures rests { (block : Block) × (kept_in self.old.content ≡ Some (kept.Home block)) × (kept_in self.new.content ≡ Some (kept.Resting block)) }
        ensures age { self.new.age ≡ (self.old.age + 1) % 2 ^ 32 }
        ensures next { self.new.next ≡ self.old.next }
        ensures after { self.new.after ≡ after }
    {
        self.content = std::mem::replace(&mut self.content, Content::Vacant).rested();
        self.age = self.age.wrapping_add(1);
        self.after = after;
    }

    /// The block that rests here has a number again.
    #[inline(always)]
    fn wake(&mut self)
        requires { (block : Block) × (kept_in self.old.content ≡ Some (kept.Resting block)) }
        ensures woken { (block : Block) × (kept_in self.old.content ≡ Some (kept.Resting block)) × (kept_in self.new.content ≡ Some (kept.Home block)) }
        ensures age { self.new.age ≡ self.old.age }
        ensures next { self.new.next ≡ self.old.next }
        ensures after { self.new.after ≡ self.old.after }
    {
        self.content = std::mem::replace(&mut self.content, Content::Vacant).woken();
    }

    /// The words of its block, which were out, are kept here, and no number names it any more.
    #[inline(always)]
    fn lay(&mut self, after: u64, words: PlainWords)
        requires { (lent : Out) × (kept_in self.old.content ≡ Some (kept.Out lent)) }
        ensures laid { (lent : Out) × (kept_in self.old.content ≡ Some (kept.Out lent)) × (kept_in self.new.content ≡ Some (kept.Laid (memory_of lent words))) }
        ensures age { self.new.age ≡ (self.old.age + 1) % 2 ^ 32 }
        ensures next { self.new.next ≡ self.old.next }
        ensures after { self.new.after ≡ after }
    {
        match std::mem::replace(&mut self.content, Content::Vacant) {
            Content::Out(lent) => {
                self.content = Content::Laid(Memory::of_words(lent.place, lent.need, words));
            }
            _ => unreachable!(),
        }
        self.age = self.age.wrapping_add(1);
        self.after = after;
    }

    /// The words that are kept here go out.
    #[inline(always)]
    fn lift(&mut self) -> Memory
        requires { (memory : Memory) × (kept_in self.old.content ≡ Some (kept.Laid memory)) }
        ensures laid { kept_in self.old.content ≡ Some (kept.Laid result) }
        ensures out { (lent : Out) × (kept_in self.new.content ≡ Some (kept.Out lent)) × (block_of (kept.Out lent) ≡ result.block) }
        ensures age { self.new.age ≡ self.old.age }
        ensures next { self.new.next ≡ self.old.next }
        ensures after { self.new.after ≡ self.old.after }
    {
        match std::mem::replace(&mut self.content, Content::Vacant) {
            Content::Laid(memory) => {
                self.content = Content::Out(LentBlock::new(memory.place(), memory.need()));
                memory
            }
            _ => unreachable!(),
        }
    }
}

/// The blocks of a pass.
#[derive(Drop)]
pub struct Table {
    slots: Vec<Slot>,
    /// The slot for the next block.
    spare: u32,
    /// What the pass keeps to give again, home and out. The slot of each has the number of the next one, which binds nobody.
    resting: Laid,
    laid: Laid,
}

impl Table {
    ghost use Rattle.balloc_c.specs.Kept.{block_of, is_laid, is_out, kept_in, memory_of, seen};
    ghost use Rattle.balloc_c.specs.Laid.{HasRoomFor, HasTurned, IsGivenAgain, IsKeptAt, IsReady, IsReadyIn, first_of, room_of, slot_of};
    ghost use Rattle.balloc_c.specs.Numbers.{NamesOneLess, NamesOneMore, HasSpare, HasSlotReady, KeepsNumbers, named, number_at};
    ghost use Rattle.balloc_c.specs.Slots.{IsVacant, HasAged, after_at, block_at, blocks_of, next_at, set_block};
    ghost use Rattle.balloc_c.specs.Packed.{HasOneMoreAtMost, IsLinked, IsPacked};

    /// No block, and no slot, and room for so many of a class that are home, and for the memory of so many.
    pub fn new(alloc: Global, depth: u8) -> Table
        ensures bare { result.slots.items ≡ [] }
        ensures packed { IsPacked result }
        ensures rooms { (class : ℕ) → class < CLASSES → (room_of result.resting class ≡ depth) × (room_of result.laid class ≡ depth) }
    {
        Table {
            slots: Vec::new(alloc),
            spare: NONE,
            resting: Laid::new(NOTHING, depth),
            laid: Laid::new(NOTHING, depth),
        }
    }

    /// How many slots there are.
    pub fn len(&self) -> usize
        ensures { result ≡ length self.now.slots.items }
    {
        self.slots.len()
    }

    /// Whether a slot stands ready.
    #[inline(always)]
    pub fn has_spare(&self) -> bool
        ensures { result ≡ true → self.now.spare ≢ NONE }
    {
        self.spare != NONE
    }

    /// A slot with no block, which stays the spare one until it is filled: one that has given its block away,
    /// or a new one.
    pub fn vacant(&mut self) -> Result<usize, Refusal>
        requires packed { IsPacked self.old }
        ensures packed { IsPacked self.new }
        ensures few { HasOneMoreAtMost self.old self.new }
        ensures spare { IfOk result (λ index. self.new.spare ≡ index) }
        ensures blocks { blocks_of self.new.slots.items ≡ blocks_of self.old.slots.items }
        ensures same { (other : ℕ) → block_at self.new.slots.items other ≡ block_at self.old.slots.items other }
        ensures keeps { KeepsNumbers self.old self.new }
        ensures vacant { IfOk result (λ index. IsVacant self.new.slots.items index × (index < 2 ^ 32)) }
        ensures ready { IfOk result (λ index. HasSlotReady self.old self.new) }
        ensures refused { IfErr result (λ cause. cause ≡ refusal.NoMemory) }
    {
        if self.spare == NONE {
            return self.grow();
        }
        Ok(self.spare as usize)
    }

    /// One slot more, which is the spare one, where each has a block.
    fn grow(&mut self) -> Result<usize, Refusal>
        requires none { self.old.spare ≡ NONE }
        requires full { length self.old.slots.items ≤ length (blocks_of self.old.slots.items) }
        requires packed { IsPacked self.old }
        ensures packed { IsPacked self.new }
        ensures few { HasOneMoreAtMost self.old self.new }
        ensures is_spare { IfOk result (λ index. self.new.spare ≡ index) }
        ensures blocks { blocks_of self.new.slots.items ≡ blocks_of self.old.slots.items }
        ensures same { (other : ℕ) → block_at self.new.slots.items other ≡ block_at self.old.slots.items other }
        ensures keeps { KeepsNumbers self.old self.new }
        ensures vacant { IfOk result (λ index. IsVacant self.new.slots.items index × (index < 2 ^ 32)) }
        ensures spare { IfOk result (λ index. HasSpare self.new) }
        ensures refused { IfErr result (λ cause. cause ≡ refusal.NoMemory) }
    {
        let index = self.slots.len();
        if index >= 0xffff_ffff {
            return Err(Refusal::NoMemory);
        }
        let slot = Slot {
            content: Content::Vacant,
            age: 0,
            next: self.spare,
            after: 0,
        };
        match self.slots.push(slot) {
            Ok(()) => {
                self.spare = index as u32;
                Ok(index)
            }
            Err(_) => Err(Refusal::NoMemory),
        }
    }

    /// The number of the block in a slot.
    fn number(&self, index: usize) -> u64
        requires { index < length self.now.slots.items }
        ensures { result ≡ number_at self.now index }
    {
        u64::from(self.slots[index].age) * 0x1_0000_0000 + index as u64 % 0x1_0000_0000
    }

    /// The slot of the block that has this number.
    pub fn find(&self, number: u64) -> Option<usize>
        ensures found { IfSome result (λ index. (index < length self.now.slots.items) × (index ≡ number % 2 ^ 32)
            × (named self.now number ≡ block_at self.now.slots.items index) × (named self.now number ≢ None)) }
        ensures lost { result ≡ None → named self.now number ≡ None }
    {
        let index = (number % 0x1_0000_0000) as usize;
        if index < self.slots.len()
            && self.slots[index].age == (number / 0x1_0000_0000) as u32
            && self.is_seen(index)
        {
            Some(index)
        } else {
            None
        }
    }

    /// Whether a number can name what is in a slot.
    #[inline(always)]
    fn is_seen(&self, index: usize) -> bool
        requires { index < length self.now.slots.items }
        ensures yes { result ≡ true → (seen (block_at self.now.slots.items index) ≡ block_at self.now.slots.items index)
            × (block_at self.now.slots.items index ≢ None) }
        ensures no { result ≡ false → seen (block_at self.now.slots.items index) ≡ None }
    {
        match &self.slots[index].content {
            Content::Vacant => false,
            Content::Home(_) => true,
            Content::Out(_) => true,
            Content::Resting(_) => false,
            Content::Laid(_) => false,
        }
    }

    /// Whether the pass keeps the memory of the block in a slot.
    pub fn is_laid(&self, index: usize) -> bool
        requires { index < length self.now.slots.items }
        ensures { result ≡ is_laid (block_at self.now.slots.items index) }
    {
        matches!(&self.slots[index].content, Content::Laid(_))
    }

    /// The block in a slot, whose words are home.
    #[inline(always)]
    pub fn home(&self, index: usize) -> &Block
        requires within { index < length self.now.slots.items }
        requires home { (block : Block) × (block_at self.now.slots.items index ≡ Some (kept.Home block)) }
        ensures { block_at self.now.slots.items index ≡ Some (kept.Home result.now) }
    {
        match &self.slots[index].content {
            Content::Home(block) => block,
            _ => unreachable!(),
        }
    }

    /// What lies in a slot.
    #[inline(always)]
    pub fn content(&self, index: usize) -> &Content
        requires { index < length self.now.slots.items }
        ensures { kept_in result.now ≡ block_at self.now.slots.items index }
    {
        &self.slots[index].content
    }

    /// Whether the words of the block in a slot are out.
    pub fn is_out(&self, index: usize) -> bool
        requires { index < length self.now.slots.items }
        ensures { result ≡ is_out (block_at self.now.slots.items index) }
    {
        matches!(&self.slots[index].content, Content::Out(_))
    }

    /// What is known of the block in a slot, where its words are out.
    pub fn out(&self, index: usize) -> Option<&LentBlock>
        requires { index < length self.now.slots.items }
        ensures out { IfSome result (λ lent. block_at self.now.slots.items index ≡ Some (kept.Out lent.now)) }
        ensures home { result ≡ None → is_out (block_at self.now.slots.items index) ≡ false }
    {
        match &self.slots[index].content {
            Content::Out(lent) => Some(lent),
            _ => None,
        }
    }

    /// Takes out of its slot what is known of a block whose words are out.
    pub fn take_lent(&mut self, index: usize) -> LentBlock
        requires within { index < length self.old.slots.items }
        requires out { (lent : Out) × (block_at self.old.slots.items index ≡ Some (kept.Out lent)) }
        ensures slots { self.new.slots.items ≡ set_block self.old.slots.items index None }
        ensures spare { self.new.spare ≡ self.old.spare }
        ensures laid { self.new.laid ≡ self.old.laid }
        ensures value { block_at self.old.slots.items index ≡ Some (kept.Out result) }
    {
        match self.set(index, None) {
            Some(Kept::Out(lent)) => lent,
            _ => unreachable!(),
        }
    }

    /// Takes a block out of its slot whose words are home.
    pub fn take_home(&mut self, index: usize) -> Block
        requires within { index < length self.old.slots.items }
        requires home { (block : Block) × (block_at self.old.slots.items index ≡ Some (kept.Home block)) }
        ensures slots { self.new.slots.items ≡ set_block self.old.slots.items index None }
        ensures spare { self.new.spare ≡ self.old.spare }
        ensures value { block_at self.old.slots.items index ≡ Some (kept.Home result) }
    {
        match self.set(index, None) {
            Some(Kept::Home(block)) => block,
            _ => unreachable!(),
        }
    }

    /// Takes memory out of its slot that the pass keeps.
    pub fn take_laid(&mut self, index: usize) -> Memory
        requires within { index < length self.old.slots.items }
        requires laid { (memory : Memory) × (block_at self.old.slots.items index ≡ Some (kept.Laid memory)) }
        ensures slots { self.new.slots.items ≡ set_block self.old.slots.items index None }
        ensures spare { self.new.spare ≡ self.old.spare }
        ensures laid { self.new.laid ≡ self.old.laid }
        ensures value { block_at self.old.slots.items index ≡ Some (kept.Laid result) }
    {
        match self.set(index, None) {
            Some(Kept::Laid(memory)) => memory,
            _ => unreachable!(),
        }
    }

    /// Puts a block into a slot, or nothing, and answers what was there.
    pub fn set(&mut self, index: usize, block: Option<Kept>) -> Option<Kept>
        requires { index < length self.old.slots.items }
        ensures slots { self.new.slots.items ≡ set_block self.old.slots.items index block }
        ensures spare { self.new.spare ≡ self.old.spare }
        ensures laid { self.new.laid ≡ self.old.laid }
        ensures value { result ≡ block_at self.old.slots.items index }
    {
        std::mem::replace(&mut self.slots[index].content, Content::of(block)).into_kept()
    }

    /// Puts a block into the spare slot, and answers its number.
    pub fn fill(&mut self, index: usize, block: Block) -> u64
        requires vacant { IsVacant self.old.slots.items index }
        requires small { index < 2 ^ 32 }
        requires spare { self.old.spare ≡ index }
        requires packed { IsPacked self.old }
        ensures packed { IsPacked self.new }
        ensures slots { self.new.slots.items ≡ set_block self.old.slots.items index (Some (kept.Home block)) }
        ensures gains { NamesOneMore self.old result (kept.Home block) self.new }
    {
        self.unspare(index);
        let _ = self.set(index, Some(Kept::Home(block)));
        self.number(index)
    }

    /// The slot is no more the spare one, but the one that was before it.
    fn unspare(&mut self, index: usize)
        requires { index < length self.old.slots.items }
        ensures slots { self.new.slots.items ≡ self.old.slots.items }
        ensures spare { self.new.spare ≡ next_at self.old.slots.items index }
    {
        self.spare = self.slots[index].next;
    }

    /// The block in the slot has been given away, and its number is no block's any more. The slot is the spare one.
    pub fn retire(&mut self, index: usize)
        requires within { index < length self.old.slots.items }
        requires small { index < 2 ^ 32 }
        ensures aged { HasAged self.old.slots.items index self.new.slots.items }
        ensures linked { IsLinked self.old index self.new }
    {
        let next = self.spare;
        let slot = &mut self.slots[index];
        slot.age = slot.age.wrapping_add(1);
        slot.next = next;
        self.spare = index as u32;
    }

    /// The slot and the class of the block of this number, where its words are home and the pass has room for it.
    #[inline(always)]
    pub fn at_home(&self, number: u64) -> Option<(usize, u8)>
        ensures { IfSome result (λ next. (block : Block) × IsKeptAt self.now number next.0 next.1 (kept.Home block)) }
    {
        let index = (number % 0x1_0000_0000) as usize;
        if !self.is_aged(index, number) {
            return None;
        }
        if !self.is_home(index) {
            return None;
        }
        let Some(class) = self.rest_room(index) else {
            return None;
        };
        Some((index, class))
    }

    /// Whether the words of the block in a slot are home, and a number can name it.
    #[inline(always)]
    fn is_home(&self, index: usize) -> bool
        requires { index < length self.now.slots.items }
        ensures { result ≡ true → (block : Block) × (block_at self.now.slots.items index ≡ Some (kept.Home block)) }
    {
        matches!(self.content(index), Content::Home(_))
    }

    /// The class of the block in a slot, whose words are home, where the pass has room for it.
    #[inline(always)]
    pub fn rest_room(&self, index: usize) -> Option<u8>
        requires within { index < length self.now.slots.items }
        requires home { (block : Block) × (block_at self.now.slots.items index ≡ Some (kept.Home block)) }
        ensures room { IfSome result (λ class. (class < CLASSES) × (0 < room_of self.now.resting class)
            × ((block : Block) × (block_at self.now.slots.items index ≡ Some (kept.Home block)) × (block.need ≡ Small class))) }
        ensures none { result ≡ None → ¬ HasRoomFor self.now (block_at self.now.slots.items index) }
    {
        let Need::Small(class) = self.home(index).need() else {
            return None;
        };
        let left = self.resting.room(class);
        if left == 0 {
            return None;
        }
        Some(class)
    }

    /// The pass keeps a block whose words are home: no number names it any more, and it is given next of its class.
    #[inline(always)]
    pub fn rest(&mut self, index: usize, class: u8, number: u64)
        requires packed { IsPacked self.old }
        requires is { (index ≡ number % 2 ^ 32) × (number_at self.old index ≡ number) }
        requires within { index < length self.old.slots.items }
        requires class { (class < CLASSES) × (0 < room_of self.old.resting class) }
        requires home { (block : Block) × (block_at self.old.slots.items index ≡ Some (kept.Home block)) × (block.need ≡ Small class) }
        ensures packed { IsPacked self.new }
        ensures rests { (block : Block) × (block_at self.old.slots.items index ≡ Some (kept.Home block))
            × HasTurned self.old.slots.items index (kept.Resting block) self.new.slots.items
            × IsReadyIn self.new class (kept.Resting block) }
        ensures chain { after_at self.new.slots.items index ≡ first_of self.old.resting class }
        ensures fewer { room_of self.new.resting class + 1 ≡ room_of self.old.resting class }
        ensures less { named self.old number ≢ None → NamesOneLess self.old number self.new }
    {
        let after = self.resting.first(class);
        self.slots[index].rest(after);
        self.resting.lay(class, number.wrapping_add(0x1_0000_0000));
    }

    /// The class of blocks for so many words, where one rests, behind the slot whose block is given next.
    #[inline(always)]
    pub fn at_rest(&self, words: u32) -> Option<(usize, u8)>
        ensures ready { IfSome result (λ next. (next.1 < CLASSES) × (words ≤ LARGE_MOST) × (need_of words ≡ Small next.1) × (next.0 ≡ slot_of self.now.resting next.1)
            × ((block : Block) × IsReadyIn self.now next.1 (kept.Resting block))) }
        ensures none { result ≡ None → (block : Block) → ¬ IsReady self.now (need_of words) (kept.Resting block) }
    {
        let Need::Small(class) = class_of(words) else {
            return None;
        };
        let first = self.resting.first(class);
        let index = (first % 0x1_0000_0000) as usize;
        if self.rests(index, first, class) {
            Some((index, class))
        } else {
            None
        }
    }

    /// Whether a block of a class rests, where this slot's is given next.
    #[inline(always)]
    fn rests(&self, index: usize, first: u64, class: u8) -> bool
        requires at { index ≡ first % 2 ^ 32 }
        requires first { first ≡ first_of self.now.resting class }
        ensures yes { result ≡ true → (block : Block) × IsReadyIn self.now class (kept.Resting block) }
        ensures no { result ≡ false → (block : Block) → ¬ IsReadyIn self.now class (kept.Resting block) }
    {
        if !self.is_aged(index, first) {
            return false;
        }
        let Content::Resting(block) = self.content(index) else {
            return false;
        };
        is_small(block.need(), class)
    }

    /// Gives a block again that rests, the next of its class. Answers its number.
    #[inline(always)]
    pub fn wake(&mut self, index: usize, class: u8) -> u64
        requires packed { IsPacked self.old }
        requires first { index ≡ slot_of self.old.resting class }
        requires class { class < CLASSES }
        requires ready { (block : Block) × IsReadyIn self.old class (kept.Resting block) }
        ensures packed { IsPacked self.new }
        ensures woken { (block : Block) × IsReadyIn self.old class (kept.Resting block)
            × HasTurned self.old.slots.items (slot_of self.old.resting class) (kept.Home block) self.new.slots.items
            × IsGivenAgain self.old class result (kept.Home block) self.new }
    {
        let number = self.resting.first(class);
        let after = self.after(index);
        self.slots[index].wake();
        self.resting.lift(class, after);
        number
    }

    /// The slot and the class of the block of this number, where its words are out and the pass has room for them.
    #[inline(always)]
    pub fn at_out(&self, number: u64) -> Option<(usize, u8)>
        ensures { IfSome result (λ next. (lent : Out) × IsKeptAt self.now number next.0 next.1 (kept.Out lent)) }
    {
        let index = (number % 0x1_0000_0000) as usize;
        if !self.is_aged(index, number) {
            return None;
        }
        if !self.is_out(index) {
            return None;
        }
        let Some(class) = self.room(index) else {
            return None;
        };
        Some((index, class))
    }

    /// The class of the block in a slot, whose words are out, where the pass has room for them.
    #[inline(always)]
    pub fn room(&self, index: usize) -> Option<u8>
        requires within { index < length self.now.slots.items }
        requires out { (lent : Out) × (block_at self.now.slots.items index ≡ Some (kept.Out lent)) }
        ensures room { IfSome result (λ class. (class < CLASSES) × (0 < room_of self.now.laid class)
            × ((lent : Out) × (block_at self.now.slots.items index ≡ Some (kept.Out lent)) × (lent.need ≡ Small class))) }
        ensures none { result ≡ None → ¬ HasRoomFor self.now (block_at self.now.slots.items index) }
    {
        let Some(lent) = self.out(index) else {
            unreachable!();
        };
        let Need::Small(class) = lent.need else {
            return None;
        };
        let room = self.laid.room(class);
        if room == 0 {
            return None;
        }
        Some(class)
    }

    /// The pass keeps the words of a block that were out: no number names it any more, and it is given next of its class.
    #[inline(always)]
    pub fn lay(&mut self, index: usize, class: u8, number: u64, words: PlainWords)
        requires packed { IsPacked self.old }
        requires is { (index ≡ number % 2 ^ 32) × (number_at self.old index ≡ number) }
        requires within { index < length self.old.slots.items }
        requires class { (class < CLASSES) × (0 < room_of self.old.laid class) }
        requires out { (lent : Out) × (block_at self.old.slots.items index ≡ Some (kept.Out lent)) × (lent.need ≡ Small class) }
        ensures packed { IsPacked self.new }
        ensures laid { (lent : Out) × (block_at self.old.slots.items index ≡ Some (kept.Out lent))
            × HasTurned self.old.slots.items index (kept.Laid (memory_of lent words)) self.new.slots.items
            × IsReadyIn self.new class (kept.Laid (memory_of lent words)) }
        ensures chain { after_at self.new.slots.items index ≡ first_of self.old.laid class }
        ensures fewer { room_of self.new.laid class + 1 ≡ room_of self.old.laid class }
        ensures less { named self.old number ≢ None → NamesOneLess self.old number self.new }
    {
        let after = self.laid.first(class);
        self.slots[index].lay(after, words);
        self.laid.lay(class, number.wrapping_add(0x1_0000_0000));
    }

    /// The class of blocks for so many words, where the pass keeps memory of it, behind the slot whose memory is given next.
    #[inline(always)]
    pub fn ready(&self, words: u32) -> Option<(usize, u8)>
        ensures ready { IfSome result (λ next. (next.1 < CLASSES) × (words ≤ LARGE_MOST) × (need_of words ≡ Small next.1) × (next.0 ≡ slot_of self.now.laid next.1)
            × ((memory : Memory) × IsReadyIn self.now next.1 (kept.Laid memory))) }
        ensures none { result ≡ None → (memory : Memory) → ¬ IsReady self.now (need_of words) (kept.Laid memory) }
    {
        let Need::Small(class) = class_of(words) else {
            return None;
        };
        let first = self.laid.first(class);
        let index = (first % 0x1_0000_0000) as usize;
        if self.is_ready(index, first, class) {
            Some((index, class))
        } else {
            None
        }
    }

    /// Whether the pass keeps memory of a class, where this slot's is given next.
    #[inline(always)]
    fn is_ready(&self, index: usize, first: u64, class: u8) -> bool
        requires at { index ≡ first % 2 ^ 32 }
        requires first { first ≡ first_of self.now.laid class }
        ensures yes { result ≡ true → (memory : Memory) × IsReadyIn self.now class (kept.Laid memory) }
        ensures no { result ≡ false → (memory : Memory) → ¬ IsReadyIn self.now class (kept.Laid memory) }
    {
        if !self.is_aged(index, first) {
            return false;
        }
        let Content::Laid(memory) = self.content(index) else {
            return false;
        };
        is_small(memory.need(), class)
    }

    /// Gives memory again that the pass keeps, the next of its class. Answers its block's number with it.
    #[inline(always)]
    pub fn lift(&mut self, index: usize, class: u8) -> (u64, Memory)
        requires packed { IsPacked self.old }
        requires first { index ≡ slot_of self.old.laid class }
        requires class { class < CLASSES }
        requires ready { (memory : Memory) × IsReadyIn self.old class (kept.Laid memory) }
        ensures packed { IsPacked self.new }
        ensures ready { IsReadyIn self.old class (kept.Laid result.1) }
        ensures out { (lent : Out) × (block_of (kept.Out lent) ≡ result.1.block)
            × HasTurned self.old.slots.items (slot_of self.old.laid class) (kept.Out lent) self.new.slots.items
            × IsGivenAgain self.old class result.0 (kept.Out lent) self.new }
    {
        let number = self.laid.first(class);
        let after = self.after(index);
        let memory = self.slots[index].lift();
        self.laid.lift(class, after);
        (number, memory)
    }

    /// The number that a slot has of the block that is given after its own.
    #[inline(always)]
    fn after(&self, index: usize) -> u64
        requires { index < length self.now.slots.items }
        ensures { result ≡ after_at self.now.slots.items index }
    {
        self.slots[index].after
    }

    /// Whether a number is that of its slot.
    #[inline(always)]
    fn is_aged(&self, index: usize, number: u64) -> bool
        requires { index ≡ number % 2 ^ 32 }
        ensures yes { result ≡ true → (index < length self.now.slots.items) × (number_at self.now index ≡ number) }
        ensures no { result ≡ false → (index < length self.now.slots.items → number_at self.now index ≢ number) }
    {
        index < self.slots.len() && (number / 0x1_0000_0000) as u32 == self.slots[index].age
    }
}
