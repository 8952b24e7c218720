//! The heap for C: what a static library offers of it. `include/balloc.h` declares the same.
//!
//! A pass for C is a handle that holds a pass of the heap with its magazines, its share in the heap and a table of
//! its blocks; C names a block by a number. Each call tests the handle, the number and what else it is given,
//! and answers a code; so none requires anything but what a handle is, and the memory of a block that is to come home.
//! Each says by its clause `told` what its code means: what the heap did, what the numbers name from then on, and what
//! memory is C's.
#![tactic(auto)]

mod calls;
mod counted;
mod erased_box;
mod hand;
mod handed;
mod handle;
mod handled;
mod kept;
mod laid;
pub mod laws;
mod lending;
mod lent;
mod opening;
mod parts;
mod ranges;
mod refusal;
mod table;
mod zeroed;

ghost use Rattle.std.specs.Prelude.{ℕ, ◌≡◌, Option, Result, length};
ghost use Rattle.std.specs.Borrow.{sem};
ghost use Rattle.plain_words.specs.declared.plain.PlainWords.{PlainWords};
ghost use Rattle.balloc_c.specs.declared.hand.Hand.{Hand};
ghost use Rattle.balloc_c.specs.declared.refusal.Refusal.{Refusal};
ghost use Rattle.balloc_c.specs.Codes.{code_in, resumed_code, resumed_number, value_in};
ghost use Rattle.balloc_c.specs.Closed.{Closes, TellsCounts};
ghost use Rattle.balloc_c.specs.Handing.{handed, words_own};
ghost use Rattle.balloc_c.specs.Handled.{AllocatesBy, BringsBy, FreesBy, IsBackOf, TellsBy};
ghost use Rattle.balloc_c.specs.Hands.{heap_of};
ghost use Rattle.balloc_c.specs.Lending.{AreNumbers};
ghost use Rattle.balloc_c.specs.Opened.{Opens, numbers};
ghost use Rattle.balloc_c.specs.Ranges.{HasFilled, HasReadRange, HasSummed, HasWrittenRange, IsFound};
ghost use Rattle.balloc_c.specs.Outcomes.{HasAllocated, HasCounted, HasPut, HasRead, HasResumed, HasTaken, HasWritten, Makes, Told};

use counted::Counted;
use handed::Handed;
use handle::PassHandle;
use heap_geometry::geometry::Geometry;
use opening::open_all;
use refusal::Refusal;
use std::alloc::Global;

/// The call was made.
const DONE: i32 = 0;

/// A free that was resumed has ended.
const FREED: i32 = 1;

/// The code of an outcome that has no value.
fn code_of(outcome: Result<(), Refusal>) -> i32
    ensures { result ≡ code_in outcome }
{
    match outcome {
        Ok(()) => DONE,
        Err(refusal) => refusal.code(),
    }
}

/// The code of an outcome, whose value goes out.
fn code_with(outcome: Result<u64, Refusal>, out: &mut u64) -> i32
    ensures code { result ≡ code_in outcome }
    ensures value { out.new ≡ value_in outcome out.old }
{
    match outcome {
        Ok(value) => {
            *out = value;
            DONE
        }
        Err(refusal) => refusal.code(),
    }
}

/// The code of a call that was resumed, and the number of a block that it got.
fn code_resumed(outcome: Result<Option<u64>, Refusal>, out: &mut u64) -> i32
    ensures code { result ≡ resumed_code outcome }
    ensures value { out.new ≡ resumed_number outcome out.old }
{
    match outcome {
        Ok(Some(number)) => {
            *out = number;
            DONE
        }
        Ok(None) => FREED,
        Err(refusal) => refusal.code(),
    }
}

/// The code of a call by the pass that a handle holds, or that it holds none.
macro_rules! answered {
    ($pass:ident, $hand:ident => $call:expr, $outcome:ident => $code:expr) => {
        match $pass.hand() {
            Some($hand) => {
                let $outcome = $call;
                $code
            }
            None => Refusal::Closed.code(),
        }
    };
}

/// Opens a heap with one caller for each handle, and puts a pass of it into each, with magazines of this depth.
#[unsafe(no_mangle)]
pub extern "C" fn balloc_open(
    alloc: Global,
    frames: u32,
    heaps: u32,
    units: u32,
    turn_limit: u64,
    depth: u32,
    passes: &mut [PassHandle],
) -> i32
    ensures opened { (outcome : Result (Unit {0}) Refusal) × (result ≡ code_in outcome)
        × Opens passes.old (numbers frames heaps units (length passes.old) turn_limit) depth outcome passes.new }
{
    let geometry = Geometry {
        frames,
        heaps,
        units,
        callers: passes.len().min(1000) as u32,
        turn_limit,
    };
    code_of(open_all(alloc, geometry, depth, passes))
}

/// Closes a pass, and tells how many exchanges it won and lost. Its blocks are freed first, those in
/// magazines too, or stay allocated.
/// The last pass of a heap takes the heap with it, and tells what that holds, where all passes were closed in no call.
#[unsafe(no_mangle)]
pub extern "C" fn balloc_close(
    alloc: Global,
    pass: &mut PassHandle,
    frees: bool,
    won: &mut u64,
    lost: &mut u64,
    census: &mut Counted,
) -> i32
    ensures told { Closes frees pass.old.held.hand result (won.old, lost.old, census.old) (won.new, lost.new, census.new)
        pass.new.held.hand }
{
    census.counted = false;
    let Some(hand) = pass.hand() else {
        return Refusal::Closed.code();
    };
    if let Err(refusal) = hand.leave(frees) {
        return refusal.code();
    }
    let hand = pass.take(alloc).unwrap();
    let (_, hand_won, hand_lost, _) = hand.counts();
    *won = hand_won;
    *lost = hand_lost;
    let _ = Box::into_inner(hand).end(alloc, census);
    DONE
}

/// Tells what a pass has counted: its turns, the exchanges that it won and lost, and the empty superblocks that
/// it took for partial ones.
#[unsafe(no_mangle)]
pub extern "C" fn balloc_counts(
    pass: &mut PassHandle,
    turns: &mut u64,
    won: &mut u64,
    lost: &mut u64,
    cleared: &mut u64,
) -> i32
    ensures told { TellsCounts pass.old.held.hand result (turns.old, won.old, lost.old, cleared.old) (turns.new, won.new, lost.new, cleared.new) }
    ensures same { pass.new.held.hand ≡ pass.old.held.hand }
{
    match pass.hand() {
        Some(hand) => {
            let (hand_turns, hand_won, hand_lost, hand_cleared) = hand.counts();
            *turns = hand_turns;
            *won = hand_won;
            *lost = hand_lost;
            *cleared = hand_cleared;
            DONE
        }
        None => Refusal::Closed.code(),
    }
}

/// Tells where the memory of a block begins. Words that are home are the caller's from now on; those that are out stay whose
/// they are, and it tells the same again. The code is told as the number of 32 bits that stands for it.
#[unsafe(no_mangle)]
pub extern "C" fn balloc_memory(pass: &mut PassHandle, id: u64, memory: &mut *mut u64) -> u32
    ensures* told { sem 𝓛 (handed (λ words. TellsBy pass.old.held.hand id result memory.new words pass.new.held.hand)) }
{
    let Handed { memory: at, code } = handled::memory(pass, id);
    *memory = at;
    code
}

/// Frees a block. The caller's memory of it is the caller's no more, but where a call is under way.
#[unsafe(no_mangle)]
pub unsafe extern "C" fn balloc_free(pass: &mut PassHandle, id: u64) -> u32
    ghost back: { Option PlainWords }
    requires back { IsBackOf pass.old.held.hand id back }
    requires* words { sem 𝓛 (words_own back) }
    ensures* told { sem 𝓛 (handed (λ left. FreesBy pass.old.held.hand id back result left pass.new.held.hand)) }
{
    let back = Handed {
        memory: std::ptr::null_mut(),
        code: 0xffff_fffb,
    };
    let Handed { memory: _, code } = handled::free(pass, id, back);
    code
}

/// Brings the memory of a block home, with what is in it: calls write and read its words again.
#[unsafe(no_mangle)]
pub unsafe extern "C" fn balloc_home(pass: &mut PassHandle, id: u64) -> u32
    ghost back: { Option PlainWords }
    requires back { IsBackOf pass.old.held.hand id back × AreNumbers back }
    requires* words { sem 𝓛 (words_own back) }
    ensures* told { sem 𝓛 (handed (λ left. BringsBy pass.old.held.hand id back result left pass.new.held.hand)) }
{
    let back = Handed {
        memory: std::ptr::null_mut(),
        code: 0xffff_fffb,
    };
    let Handed { memory: _, code } = handled::bring(pass, id, back);
    code
}

/// Allocates a block of so many bytes, and tells its number and where its memory begins, which is the caller's until the
/// free; NULL where it is refused.
#[unsafe(no_mangle)]
pub extern "C" fn balloc_alloc(
    pass: &mut PassHandle,
    bytes: usize,
    id: &mut u64,
    memory: &mut *mut u64,
) -> u32
    ensures* told { sem 𝓛 (handed (λ words. AllocatesBy pass.old.held.hand bytes id.old result id.new memory.new words pass.new.held.hand)) }
{
    let Handed { memory: at, code } = handled::alloc_memory(pass, bytes, id);
    *memory = at;
    code
}

/// Allocates a block of so many usable words, and tells its number. Its words stay home.
#[unsafe(no_mangle)]
pub extern "C" fn balloc_alloc_words(pass: &mut PassHandle, words: u32, id: &mut u64) -> i32
    ensures told { Told (Makes (λ c t. HasAllocated c t words)) pass.old.held.hand
        (λ outcome. (result ≡ code_in outcome) × (id.new ≡ value_in outcome id.old)) pass.new.held.hand }
{
    match pass.hand() {
        Some(hand) => hand.alloc(words, id),
        None => Refusal::Closed.code(),
    }
}

/// Goes on with a call that was interrupted, and tells the number of the block that it got.
#[unsafe(no_mangle)]
pub extern "C" fn balloc_resume(pass: &mut PassHandle, id: &mut u64) -> i32
    ensures told { Told (λ before. Makes (λ c t. HasResumed (heap_of before) c t) before) pass.old.held.hand
        (λ outcome. (result ≡ resumed_code outcome) × (id.new ≡ resumed_number outcome id.old)) pass.new.held.hand }
{
    answered!(pass, hand => hand.resume(), outcome => code_resumed(outcome, id))
}

/// Tells how many usable words a block has, which may be more than were asked for.
#[unsafe(no_mangle)]
pub extern "C" fn balloc_words(pass: &mut PassHandle, id: u64, words: &mut u64) -> i32
    ensures told { Told (Makes (λ c t. HasCounted c t id)) pass.old.held.hand
        (λ outcome. (result ≡ code_in outcome) × (words.new ≡ value_in outcome words.old)) pass.new.held.hand }
{
    answered!(pass, hand => hand.words(id), outcome => code_with(outcome, words))
}

/// Writes a word of a block.
#[unsafe(no_mangle)]
pub extern "C" fn balloc_write(pass: &mut PassHandle, id: u64, i: u32, value: u64) -> i32
    ensures told { Told (Makes (λ c t. HasWritten c t id i value)) pass.old.held.hand
        (λ outcome. result ≡ code_in outcome) pass.new.held.hand }
{
    answered!(pass, hand => hand.write(id, i, value), outcome => code_of(outcome))
}

/// Reads a word of a block.
#[unsafe(no_mangle)]
pub extern "C" fn balloc_read(pass: &mut PassHandle, id: u64, i: u32, value: &mut u64) -> i32
    ensures told { Told (Makes (λ c t. HasRead c t id i)) pass.old.held.hand
        (λ outcome. (result ≡ code_in outcome) × (value.new ≡ value_in outcome value.old)) pass.new.held.hand }
{
    answered!(pass, hand => hand.read(id, i), outcome => code_with(outcome, value))
}

/// Writes words of a block in a row, from one on: all of them, or none.
#[unsafe(no_mangle)]
pub extern "C" fn balloc_write_range(
    pass: &mut PassHandle,
    id: u64,
    from: u32,
    words: &[u64],
) -> i32
    ensures told { Told (Makes (λ c t. HasWrittenRange c t id from words.now)) pass.old.held.hand
        (λ outcome. result ≡ code_in outcome) pass.new.held.hand }
{
    answered!(pass, hand => hand.write_range(id, from, words), outcome => code_of(outcome))
}

/// Reads words of a block in a row, from one on: all of them, or none.
#[unsafe(no_mangle)]
pub extern "C" fn balloc_read_range(
    pass: &mut PassHandle,
    id: u64,
    from: u32,
    words: &mut [u64],
) -> i32
    ensures told { Told (Makes (λ c t. HasReadRange c t id from words.old words.new)) pass.old.held.hand
        (λ outcome. (result ≡ code_in outcome) × IsFound outcome words.old words.new) pass.new.held.hand }
{
    answered!(pass, hand => hand.read_range(id, from, words), outcome => code_of(outcome))
}

/// Fills a block: word i with from + i, modulo 2^64.
#[unsafe(no_mangle)]
pub extern "C" fn balloc_fill(pass: &mut PassHandle, id: u64, from: u64) -> i32
    ensures told { Told (Makes (λ c t. HasFilled c t id from)) pass.old.held.hand
        (λ outcome. result ≡ code_in outcome) pass.new.held.hand }
{
    answered!(pass, hand => hand.fill(id, from), outcome => code_of(outcome))
}

/// Tells the sum of the words of a block, modulo 2^64.
#[unsafe(no_mangle)]
pub extern "C" fn balloc_sum(pass: &mut PassHandle, id: u64, sum: &mut u64) -> i32
    ensures told { Told (Makes (λ c t. HasSummed c t id)) pass.old.held.hand
        (λ outcome. (result ≡ code_in outcome) × (sum.new ≡ value_in outcome sum.old)) pass.new.held.hand }
{
    answered!(pass, hand => hand.sum(id), outcome => code_with(outcome, sum))
}

/// Puts a block on a shelf.
#[unsafe(no_mangle)]
pub extern "C" fn balloc_put(pass: &mut PassHandle, id: u64, shelf: u8) -> i32
    ensures told { Told (Makes (λ c t. HasPut c t id shelf)) pass.old.held.hand
        (λ outcome. result ≡ code_in outcome) pass.new.held.hand }
{
    answered!(pass, hand => hand.put(id, shelf), outcome => code_of(outcome))
}

/// Takes the block that lies on a shelf, and tells its number.
#[unsafe(no_mangle)]
pub extern "C" fn balloc_take(pass: &mut PassHandle, shelf: u8, id: &mut u64) -> i32
    ensures told { Told (Makes (λ c t. HasTaken c t shelf)) pass.old.held.hand
        (λ outcome. (result ≡ code_in outcome) × (id.new ≡ value_in outcome id.old)) pass.new.held.hand }
{
    answered!(pass, hand => hand.take(shelf), outcome => code_with(outcome, id))
}
