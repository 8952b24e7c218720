//! A program that embeds a heap: one pass writes a word, makes other calls, reads the word and hands its
//! block over; another pass takes the block, reads the word and frees the block.

ghost use Rattle.std.specs.Prelude.{◌≡◌, ◌<◌, ◌≤◌, ◌-◌, ◌^◌, min, Ok, IfOk, codes};
ghost use Rattle.std.specs.Result.{IfErr};
ghost use Rattle.heap_geometry.specs.Geometry.{IsChecked};
ghost use Rattle.heap_geometry.specs.Need.{usable_words};
ghost use Rattle.heap_geometry.specs.declared.limits.TheConstants.{CLASSES, LARGE_MOST};
ghost use Rattle.errand_steps.specs.declared.reply.Reply.TheVariants as reply;
ghost use Rattle.errand_steps.specs.Calls.{alloc, free, put, take};
ghost use Rattle.sound_state.specs.Sums.{sum_below};
ghost use Rattle.live_heap.specs.Passes.{IsFresh, Owns};
ghost use Rattle.live_heap.specs.Whole.{IsAtRest};
ghost use Rattle.worked_programs.specs.Embedded.{Fetches, HasRun, HasStopped, IsNextOfFirst, IsNextOfSecond, Keeps, Makes, Stops, WasStopped, lines_of, live_in};

use heap_census::census::CLASS_COUNT;
use heap_census::counting::census;
use heap_geometry::geometry::Geometry;
use live_heap::answers::{AllocAnswer, FreeAnswer, Taken};
use live_heap::block::Block;
use live_heap::closed::Closed;
use live_heap::heap::Heap;
use live_heap::laws::blocks::{
    calls_change_their_block, given_blocks_have_enough_words, passes_see_more,
};
use live_heap::laws::{closed_heaps_are_sound, whole_calls_keep_blocks};
use live_heap::pass::Pass;
use pool_model::laws::{histories_grow_by_events, live_blocks_are_counted, shelves_keep_order};
use std::alloc::{AllocError, Global};
use trace_text::text::Text;

/// How often a call may lose an exchange before the program gives it up.
pub const TRIES: u32 = 9;

/// The shelf over which the block is handed.
pub const SHELF: u8 = 5;

/// The answer of a call that ended the program.
#[derive(Clone, Copy, Debug, PartialEq, Eq)]
pub enum Stop {
    /// An allocation was refused.
    Refused,
    /// The pass of an allocation had no turn left.
    Spent,
    /// An allocation or a free was interrupted.
    Busy,
    /// The shelf held a block already.
    Full,
    /// The shelf was empty.
    Empty,
    /// The shelf was changed between the two steps of a take.
    Missed,
    /// The block that was taken from the shelf has no such word.
    Short,
}

/// What the program came to.
#[derive(Drop)]
pub struct Report {
    /// The word that the first pass read, after its other calls.
    pub kept: u64,
    /// The word that the second pass read in the block that was handed to it.
    pub handed: u64,
    /// How many blocks of all classes are live in what is left of the heap.
    pub live: u64,
    /// What is left of the heap.
    pub closed: Closed,
}

/// The answer of the call that ended the program, the heap that it opened, and both passes as they were left.
#[derive(Drop)]
pub struct Stopped {
    pub stop: Stop,
    pub heap: Heap,
    pub first: Pass,
    pub second: Pass,
}

/// An allocation of so many words.
fn allocate(heap: &Heap, pass: &mut Pass, words: u32) -> Result<Block, Stop>
    requires rest { IsAtRest heap.now pass.old }
    requires words { words ≤ LARGE_MOST }
    ensures given { IfOk result (λ block. Makes heap.now pass.old (alloc words) (reply.Given block.place block.need) pass.new) }
    ensures stopped { IfErr result (λ stop. Stops heap.now pass.old (alloc words) stop pass.new) }
{
    match heap.alloc(pass, words, TRIES) {
        AllocAnswer::Given(block) => Ok(block),
        AllocAnswer::Refused => Err(Stop::Refused),
        AllocAnswer::Spent => Err(Stop::Spent),
        AllocAnswer::Busy => Err(Stop::Busy),
        AllocAnswer::TooLarge => unreachable!(),
    }
}

/// The free of a block.
fn give_back(heap: &Heap, pass: &mut Pass, block: Block) -> Result<(), Stop>
    requires rest { IsAtRest heap.now pass.old }
    requires owned { Owns pass.old block }
    ensures freed { IfOk result (λ _. Makes heap.now pass.old (free block.place block.need) reply.Freed pass.new) }
    ensures stopped { IfErr result (λ stop. Stops heap.now pass.old (free block.place block.need) stop pass.new) }
{
    match heap.free(pass, block, TRIES) {
        FreeAnswer::Freed => Ok(()),
        FreeAnswer::Busy => Err(Stop::Busy),
    }
}

/// The block that lies on the shelf, where it has a word 1.
fn pick_up(heap: &Heap, pass: &mut Pass) -> Result<Block, Stop>
    requires rest { IsAtRest heap.now pass.old }
    ensures got { IfOk result (λ block. Makes heap.now pass.old (take SHELF) (reply.Got block.place block.need) pass.new) }
    ensures word { IfOk result (λ block. 1 < usable_words block.need) }
    ensures stopped { IfErr result (λ stop. Stops heap.now pass.old (take SHELF) stop pass.new) }
{
    match heap.take(pass, SHELF) {
        Taken::Got(block) => {
            if block.usable_words() > 1 {
                Ok(block)
            } else {
                Err(Stop::Short)
            }
        }
        Taken::Empty => Err(Stop::Empty),
        Taken::Missed { .. } => Err(Stop::Missed),
    }
}

/// Puts the block on the shelf.
fn hand_over(heap: &Heap, pass: &mut Pass, block: Block) -> Result<(), Stop>
    requires rest { IsAtRest heap.now pass.old }
    requires owned { Owns pass.old block }
    ensures put { IfOk result (λ _. Makes heap.now pass.old (put block.place block.need SHELF) reply.Put pass.new) }
    ensures stopped { IfErr result (λ stop. Stops heap.now pass.old (put block.place block.need SHELF) stop pass.new) }
{
    match heap.put(pass, block, SHELF) {
        Ok(()) => Ok(()),
        Err(_) => Err(Stop::Full),
    }
}

/// The calls of the first pass, and the word that it reads behind others.
fn keep(heap: &Heap, pass: &mut Pass) -> Result<u64, Stop>
    requires { IsFresh heap.now pass.old }
    ensures kept { IfOk result (λ kept. Keeps heap.now pass.old kept pass.new) }
    ensures stopped { IfErr result (λ stop. HasStopped heap.now pass.old IsNextOfFirst stop pass.new) }
{
    whole_calls_keep_blocks();
    given_blocks_have_enough_words();
    let block = allocate(heap, pass, 3)?;
    heap.write(pass, &block, 1, 7);
    let other = allocate(heap, pass, 5)?;
    heap.write(pass, &other, 1, 8);
    give_back(heap, pass, other)?;
    let kept = heap.read(pass, &block, 1);
    hand_over(heap, pass, block)?;
    Ok(kept)
}

/// The calls of the second pass, and the word that it reads in the block that it took.
fn fetch(heap: &Heap, pass: &mut Pass) -> Result<u64, Stop>
    requires { IsFresh heap.now pass.old }
    ensures fetched { IfOk result (λ handed. Fetches heap.now pass.old handed pass.new) }
    ensures stopped { IfErr result (λ stop. HasStopped heap.now pass.old IsNextOfSecond stop pass.new) }
{
    whole_calls_keep_blocks();
    let block = pick_up(heap, pass)?;
    let handed = heap.read(pass, &block, 1);
    give_back(heap, pass, block)?;
    Ok(handed)
}

/// The numbers of its heap.
fn four_frames() -> Geometry
    ensures checked { IsChecked result }
    ensures callers { result.callers ≡ 2 }
{
    Geometry {
        frames: 4,
        heaps: 1,
        units: 2,
        callers: 2,
        turn_limit: 99,
    }
}

/// The program: a heap of 4 frames and 2 units, its two passes at work, and its end.
pub fn run(alloc: Global) -> Result<Result<Report, Stopped>, AllocError>
    ensures ran { IfOk result (λ told. IfOk told HasRun) }
    ensures stopped { IfOk result (λ told. IfErr told WasStopped) }
{
    calls_change_their_block();
    passes_see_more();
    given_blocks_have_enough_words();
    closed_heaps_are_sound();
    live_blocks_are_counted();
    shelves_keep_order();
    histories_grow_by_events();
    let (heap, mut passes) = Heap::open(alloc, four_frames())?;
    let mut second = passes.remove(1);
    let mut first = passes.remove(0);
    let kept = match keep(&heap, &mut first) {
        Ok(kept) => kept,
        Err(stop) => {
            return Ok(Err(Stopped {
                stop,
                heap,
                first,
                second,
            }));
        }
    };
    let handed = match fetch(&heap, &mut second) {
        Ok(handed) => handed,
        Err(stop) => {
            return Ok(Err(Stopped {
                stop,
                heap,
                first,
                second,
            }));
        }
    };
    passes.push_reserved(first);
    passes.push_reserved(second);
    match heap.close(alloc, passes) {
        Ok(closed) => Ok(Ok(Report {
            kept,
            handed,
            live: count_live(&closed),
            closed,
        })),
        Err(_) => unreachable!(),
    }
}

/// How many blocks of all classes are live in it, at most 2^64 - 1.
pub fn count_live(closed: &Closed) -> u64
    ensures { result ≡ min (sum_below CLASSES (live_in closed.now)) (2 ^ 64 - 1) }
{
    let counted = census(closed);
    let mut live = 0u64;
    for class in 0..CLASS_COUNT {
        live = live.saturating_add(counted.per_class[class].live);
    }
    live
}

/// What the program prints.
pub fn told(alloc: Global) -> Result<Result<Vec<u8>, Stopped>, AllocError>
    ensures prints { IfOk result (λ told. IfOk told (λ text. text.items ≡ codes "kept 7\nhanded 7\nlive 0\n")) }
    ensures stopped { IfOk result (λ told. IfErr told WasStopped) }
{
    match run(alloc)? {
        Ok(report) => Ok(Ok(lines(alloc, report.kept, report.handed, report.live)?)),
        Err(stopped) => Ok(Err(stopped)),
    }
}

/// Its three lines.
fn lines(alloc: Global, kept: u64, handed: u64, live: u64) -> Result<Vec<u8>, AllocError>
    ensures { IfOk result (λ text. text.items ≡ lines_of kept handed live) }
{
    let mut text = Text::new(alloc);
    text.line_with("kept", kept)?;
    text.line_with("handed", handed)?;
    text.line_with("live", live)?;
    Ok(text.into_bytes())
}
