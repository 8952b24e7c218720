//! Whole calls: a begin, and steps to the end.

ghost use Rattle.std.specs.Prelude.{ℕ, ◌≡◌, ◌<◌, ◌↔◌, Some, None, IfOk, Ok};
ghost use Rattle.std.specs.Result.{IfErr};
ghost use Rattle.heap_geometry.specs.Need.{usable_words};
ghost use Rattle.heap_geometry.specs.declared.limits.TheConstants.{LARGE_MOST, SHELVES};
ghost use Rattle.pool_model.specs.Histories.{Begins};
ghost use Rattle.errand_steps.specs.declared.reply.Begun.TheVariants as begun;
ghost use Rattle.errand_steps.specs.declared.reply.Reply.TheVariants as reply;
ghost use Rattle.errand_steps.specs.declared.told.Ending.{Ending};
ghost use Rattle.errand_steps.specs.Begins.{IsIdle, IsBusy, alloc_answer};
ghost use Rattle.errand_steps.specs.Calls.{Call, put, read, write};
ghost use Rattle.live_heap.specs.declared.answers.AllocAnswer.{AllocAnswer};
ghost use Rattle.live_heap.specs.declared.answers.Resumed.{Resumed};
ghost use Rattle.live_heap.specs.declared.block.Block.{Block};
ghost use Rattle.live_heap.specs.declared.pass.Pass.{Pass};
ghost use Rattle.live_heap.specs.Answers.{AllocTells, FreeTells, IsAllocEnding, IsContents, IsResumable, PutTellsFull, ResumeTells, TakeTells, IsTriedEnding, alloc_ended, resumed_ended, reply_in};
ghost use Rattle.live_heap.specs.Calls.{GoesOn, HasCalled, IsCalling};
ghost use Rattle.live_heap.specs.Passes.{IsOf, Owns, seen};
ghost use Rattle.live_heap.specs.Shelves.{MayLieOn, PutsByRule};

use crate::answers::{AllocAnswer, FreeAnswer, Full, Resumed, Taken};
use crate::block::Block;
use crate::heap::Heap;
use crate::pass::Pass;
use crate::shelves::ShelfRule;
use errand_steps::reply::{Begun, Progress, Reply};
use errand_steps::told::Ending;
use heap_geometry::need::{Need, class_of};
use packed_words::shelf::ShelfWord;
use std::marker::Brand;
use step_parts::large::point::{LargePoint, plan_large, settle_large};
use word_table::action::Action;
use word_table::name::WordName;

impl<R: ShelfRule> Heap<R> {
    /// An allocation of so many usable words. It loses fewer exchanges, and clears fewer empty
    /// superblocks, than there are tries, or is interrupted; between two of these it makes fewer than
    /// `CALL_STEPS` steps.
    pub fn alloc(&self, pass: &mut Pass, need: u32, tries: u32) -> AllocAnswer
        requires of { IsOf self.now pass.old }
        requires idle { IsIdle pass.old.errand }
        requires tries { 0 < tries }
        ensures of { IsOf self.now pass.new }
        ensures too_large { (result ≡ AllocAnswer.TooLarge) ↔ (LARGE_MOST < need) }
        ensures spent { alloc_answer pass.old.errand need ≡ begun.Spent → result ≡ AllocAnswer.Spent }
        ensures tells { AllocTells pass.old need tries result pass.new }
    {
        match class_of(need) {
            Need::Small(class) if !pass.errand.is_spent() => {
                self.alloc_small(pass, need, class, tries)
            }
            _ => self.alloc_begun(pass, need, tries),
        }
    }

    /// An allocation by its errand, from its begin on.
    #[inline(never)]
    fn alloc_begun(&self, pass: &mut Pass, need: u32, tries: u32) -> AllocAnswer
        requires of { IsOf self.now pass.old }
        requires idle { IsIdle pass.old.errand }
        requires tries { 0 < tries }
        ensures of { IsOf self.now pass.new }
        ensures too_large { (result ≡ AllocAnswer.TooLarge) ↔ (LARGE_MOST < need) }
        ensures spent { alloc_answer pass.old.errand need ≡ begun.Spent → result ≡ AllocAnswer.Spent }
        ensures tells { AllocTells pass.old need tries result pass.new }
    {
        match self.begin_alloc(pass, need) {
            Begun::TooLarge => AllocAnswer::TooLarge,
            Begun::Spent => AllocAnswer::Spent,
            Begun::Started => match self.go_on(pass, tries) {
                Some(ending) => alloc_ended(ending),
                None => AllocAnswer::Busy,
            },
        }
    }

    /// Frees the pass's block. It may be interrupted as an allocation may.
    pub fn free(&self, pass: &mut Pass, block: Block, tries: u32) -> FreeAnswer
        requires of { IsOf self.now pass.old }
        requires idle { IsIdle pass.old.errand }
        requires owned { Owns pass.old block }
        requires tries { 0 < tries }
        ensures of { IsOf self.now pass.new }
        ensures tells { FreeTells pass.old block tries result pass.new }
    {
        match block.need {
            Need::Small(class) => self.free_small(pass, block, class, tries),
            _ => self.free_begun(pass, block, tries),
        }
    }

    /// The free of a block by its errand, from its begin on.
    #[inline(never)]
    fn free_begun(&self, pass: &mut Pass, block: Block, tries: u32) -> FreeAnswer
        requires of { IsOf self.now pass.old }
        requires idle { IsIdle pass.old.errand }
        requires owned { Owns pass.old block }
        requires tries { 0 < tries }
        ensures of { IsOf self.now pass.new }
        ensures tells { FreeTells pass.old block tries result pass.new }
    {
        self.begin_free(pass, block);
        match self.go_on(pass, tries) {
            Some(_) => FreeAnswer::Freed,
            None => FreeAnswer::Busy,
        }
    }

    /// Goes on with an allocation or a free that was interrupted.
    pub fn resume(&self, pass: &mut Pass, tries: u32) -> Resumed
        requires of { IsOf self.now pass.old }
        requires under_way { IsResumable pass.old }
        requires tries { 0 < tries }
        ensures of { IsOf self.now pass.new }
        ensures grows { Begins (seen pass.old) (seen pass.new) }
        ensures tells { (first : Pass) (call : Call) (made : ℕ) → IsOf self.now first → IsCalling first call made pass.old
            → ResumeTells first call made pass.old tries result pass.new }
    {
        match self.go_on(pass, tries) {
            Some(ending) => resumed_ended(ending),
            None => Resumed::Busy,
        }
    }

    /// Writes a usable word of the pass's block; `i` counts them from 0.
    pub fn write(&self, pass: &mut Pass, block: &Block, i: u32, v: u64)
        requires of { IsOf self.now pass.old }
        requires idle { IsIdle pass.old.errand }
        requires owned { Owns pass.old block.now }
        requires word { i < usable_words block.now.need }
        ensures of { IsOf self.now pass.new }
        ensures called { HasCalled pass.old (write block.now.place block.now.need i v) 0 reply.Wrote pass.new }
    {
        self.write_word(pass, block.place, block.need, i, v);
    }

    /// Reads a usable word of the pass's block; `i` counts them from 0. It is what the block's owners last
    /// wrote there; of a word that none has written it is some number.
    pub fn read(&self, pass: &mut Pass, block: &Block, i: u32) -> u64
        requires of { IsOf self.now pass.old }
        requires idle { IsIdle pass.old.errand }
        requires owned { Owns pass.old block.now }
        requires word { i < usable_words block.now.need }
        ensures of { IsOf self.now pass.new }
        ensures called { HasCalled pass.old (read block.now.place block.now.need i) 0 (reply.Word result) pass.new }
        ensures contents { IsContents pass.new block.now.place i result }
    {
        self.read_word(pass, block.place, block.need, i)
    }

    /// Puts the pass's block on a shelf, from where any pass may take it. Its words may lie there by the heap's rule.
    pub fn put(&self, pass: &mut Pass, block: Block, shelf: u8) -> Result<(), Full>
        requires of { IsOf self.now pass.old }
        requires idle { IsIdle pass.old.errand }
        requires owned { Owns pass.old block }
        requires shelf { shelf < SHELVES }
        requires words { MayLieOn R.allows (seen pass.old) pass.old.errand.caller block.place shelf }
        ensures of { IsOf self.now pass.new }
        ensures put { IfOk result (λ _. HasCalled pass.old (put block.place block.need shelf) 0 reply.Put pass.new) }
        ensures full { IfErr result (λ full. PutTellsFull pass.old block shelf full pass.new) }
    {
        let at = LargePoint::PutBlock {
            shelf,
            place: block.place,
            need: block.need,
        };
        let lies = ShelfWord::Block {
            place: block.place,
            need: block.need,
        };
        let action = Action::Cas(
            WordName::Shelf(shelf),
            ShelfWord::Nothing.pack(),
            lies.pack(),
        );
        let found = self.step_on_shelf::<Brand>(&mut pass.seat, &pass.errand, action, &at);
        pass.errand.count(action, found);
        if found.won {
            Ok(())
        } else {
            Err(Full {
                block,
                found: found.value,
            })
        }
    }

    /// Takes the block that lies on a shelf. Its words are such as may lie there by the heap's rule.
    pub fn take(&self, pass: &mut Pass, shelf: u8) -> Taken
        requires of { IsOf self.now pass.old }
        requires idle { IsIdle pass.old.errand }
        requires shelf { shelf < SHELVES }
        ensures of { IsOf self.now pass.new }
        ensures tells { TakeTells pass.old shelf result pass.new }
        ensures words { (block : Block) → result ≡ Taken.Got block → MayLieOn R.allows (seen pass.new) pass.new.errand.caller block.place shelf }
    {
        let mut at = LargePoint::LoadShelf { shelf };
        let load = Action::Load(WordName::Shelf(shelf));
        let first = self.step_on_shelf::<Brand>(&mut pass.seat, &pass.errand, load, &at);
        let _ = settle_large(&mut at, first);
        let action = plan_large(&at);
        let found = self.step_on_shelf::<Brand>(&mut pass.seat, &pass.errand, action, &at);
        if found.won {
            pass.errand.count(action, found);
            match at {
                LargePoint::TakeBlock { place, need, .. } => Taken::Got(Block { place, need }),
                _ => Taken::Empty,
            }
        } else {
            pass.errand.begin_take(shelf);
            let _ = pass.errand.go_on(load, first);
            match pass.errand.go_on(action, found) {
                Progress::Done(Reply::Missed { expected, found }) => {
                    Taken::Missed { expected, found }
                }
                _ => unreachable!(),
            }
        }
    }

    /// Makes steps to the end of the call that is under way, or until as many of them lost or cleared as
    /// there are tries.
    fn go_on(&self, pass: &mut Pass, tries: u32) -> Option<Ending<Block>>
        requires of { IsOf self.now pass.old }
        requires busy { IsBusy pass.old.errand }
        requires puts { PutsByRule R.allows (seen pass.old) pass.old.errand }
        requires tries { 0 < tries }
        ensures of { IsOf self.now pass.new }
        ensures grows { Begins (seen pass.old) (seen pass.new) }
        ensures goes { (first : Pass) (call : Call) (made : ℕ) → IsCalling first call made pass.old
            → GoesOn first call made pass.old tries (reply_in result) pass.new }
    {
        self.drive(pass, tries, tries)
    }
}

/// The answer of an allocation that has ended so.
#[inline(always)]
pub(crate) fn alloc_ended(ending: Ending<Block>) -> AllocAnswer
    requires { IsAllocEnding ending }
    ensures { result ≡ alloc_ended ending }
{
    match ending {
        Ending::Given(block) => AllocAnswer::Given(block),
        Ending::Refused => AllocAnswer::Refused,
        Ending::Spent => AllocAnswer::Spent,
        _ => unreachable!(),
    }
}

/// The answer of a resumed call that has ended so.
fn resumed_ended(ending: Ending<Block>) -> Resumed
    requires { IsTriedEnding ending }
    ensures { result ≡ resumed_ended ending }
{
    match ending {
        Ending::Given(block) => Resumed::Given(block),
        Ending::Freed => Resumed::Freed,
        Ending::Refused => Resumed::Refused,
        Ending::Spent => Resumed::Spent,
        _ => unreachable!(),
    }
}
