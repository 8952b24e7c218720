//! Small runs on a heap. Expected values are worked by hand, or come from a model of the machine that was
//! written apart from it.

ghost use Rattle.live_heap.specs.Hands.{IsHand};
ghost use Rattle.live_heap.specs.Passes.{IsOf};

use errand_steps::reply::Begun;
use errand_steps::told::{Ending, Stepped};
use heap_geometry::geometry::Geometry;
use heap_geometry::limits::{CALL_STEPS, CLASSES, SHELVES};
use heap_geometry::need::Need;
use heap_scripts::alone::{close_alone, geometry, open_alone};
use heap_scripts::hand::come_to;
use heap_scripts::request::{Request as Asked, Told};
use heap_scripts::whole;
use live_heap::block::Block;
use live_heap::closed::Closed;
use live_heap::heap::Heap;
use live_heap::pass::Pass;
use std::alloc::{AllocError, Global};
use std::test::Fail;
use word_table::name::WordName;

/// The anchor of a descriptor, where the heap has it.
fn anchor(closed: &Closed, desc: u16) -> Option<u64> {
    if u32::from(desc) < closed.geometry().frames {
        Some(closed.word(WordName::Anchor(desc)))
    } else {
        None
    }
}

/// The active word of a class in a processor heap, where the heap has it.
fn active(closed: &Closed, heap: u8, class: u8) -> Option<u64> {
    if u32::from(heap) < closed.geometry().heaps && class < CLASSES {
        Some(closed.word(WordName::Active(heap, class)))
    } else {
        None
    }
}

/// Whether the pass is in no call, its turns, won and lost exchanges, and empty superblocks.
fn counts(pass: &Pass) -> (bool, u64, u64, u64, u64) {
    (
        pass.idle(),
        pass.turns(),
        pass.won(),
        pass.lost(),
        pass.cleared(),
    )
}

/// Steps of the pass to the end of its call: how many it makes, and what the last one came to.
fn finish(heap: &Heap, pass: &mut Pass) -> (u64, Stepped<Block>)
    requires { IsOf heap.now pass.old }
    ensures { IsOf heap.now pass.new }
{
    let mut last = Stepped::Idle;
    for made in 0..CALL_STEPS {
        last = heap.step(pass);
        match last {
            Stepped::More | Stepped::Lost | Stepped::Cleared => {}
            _ => return (made + 1, last),
        }
    }
    (CALL_STEPS, last)
}

/// An allocation step by step, where the pass is in no call and it begins.
fn alloc_by_steps(heap: &Heap, pass: &mut Pass, need: u32) -> Option<(u64, Stepped<Block>)>
    requires { IsOf heap.now pass.old }
    ensures { IsOf heap.now pass.new }
{
    if !pass.idle() {
        return None;
    }
    match heap.begin_alloc(pass, need) {
        Begun::Started => Some(finish(heap, pass)),
        _ => None,
    }
}

/// After how many steps a block was given, its place and its words; `None` where none was.
fn given_after(made: (u64, Stepped<Block>)) -> Option<(u64, u32, u32)> {
    match made {
        (steps, Stepped::Done(Ending::Given(block))) => Some((
            steps,
            block.place(),
            block.usable_words(),
        )),
        _ => None,
    }
}

/// A take step by step, where the pass is in no call and there is such a shelf.
fn take_by_steps(heap: &Heap, pass: &mut Pass, shelf: u8) -> Option<(u64, Stepped<Block>)>
    requires { IsOf heap.now pass.old }
{
    if pass.idle() && shelf < SHELVES {
        heap.begin_take(pass, shelf);
        Some(finish(heap, pass))
    } else {
        None
    }
}

/// What is asked of a block.
#[derive(Clone, Copy)]
enum Request {
    Free,
    Write(u32, u64),
    Read(u32),
    Put(u8),
}

/// A call on the first block of a hand step by step, where it can be made.
fn call_by_steps(
    heap: &Heap,
    pass: &mut Pass,
    blocks: Vec<Block>,
    request: Request,
) -> Option<(u64, Stepped<Block>)>
    requires { IsHand heap.now pass.old blocks.items }
{
    let mut blocks = blocks;
    if !pass.idle() || blocks.len() == 0 {
        return None;
    }
    let block = blocks.remove(0);
    match request {
        Request::Free => heap.begin_free(pass, block),
        Request::Write(i, v) if i < block.usable_words() => heap.begin_write(pass, &block, i, v),
        Request::Read(i) if i < block.usable_words() => heap.begin_read(pass, &block, i),
        Request::Put(shelf) if shelf < SHELVES => heap.begin_put(pass, block, shelf),
        _ => return None,
    }
    Some(finish(heap, pass))
}

/// The same on a new heap, whose caller has a block of 3 words, in the first of which stands 8.
fn call_on_eight(
    alloc: Global,
    request: Request,
) -> Result<Option<(u64, Stepped<Block>)>, AllocError> {
    let (heap, mut pass, mut blocks) = open_alone(alloc, 4, 0, 9)?;
    let _ = whole::make(&heap, &mut pass, &mut blocks, Asked::Alloc(3), 1)?;
    let _ = whole::make(&heap, &mut pass, &mut blocks, Asked::Write(0, 0, 8), 1)?;
    Ok(call_by_steps(&heap, &mut pass, blocks, request))
}

#[test]
fn a_heap_opens_with_a_pass_for_each_caller(rt: HostRuntime) -> Result<(), Fail> {
    let (heap, passes) = Heap::open(rt.alloc(), geometry(1, 0, 2, 9))?;
    assert_eq!(rt; heap.geometry(), geometry(1, 0, 2, 9));
    assert_eq!(rt; passes.len(), 2);
    for caller in 0..2 {
        let pass = passes.get(caller as usize);
        assert_eq!(rt; pass.map(Pass::caller), Some(caller));
        assert_eq!(rt; pass.map(counts), Some((true, 0, 0, 0, 0)), "of {caller}");
    }
    Ok(())
}

/// The numbers of a closed heap, the anchor of its first superblock, the active word of its largest class,
/// and its won and lost exchanges.
fn seen(closed: &Closed) -> (Geometry, Option<u64>, Option<u64>, u64, u64) {
    (
        closed.geometry(),
        anchor(closed, 0),
        active(closed, 0, 10),
        closed.won(),
        closed.lost(),
    )
}

#[test]
fn the_first_block_makes_its_superblock_the_active_one(rt: HostRuntime) -> Result<(), Fail> {
    let (heap, mut pass, mut blocks) = open_alone(rt.alloc(), 1, 0, 9)?;
    let rows = [(Asked::Alloc(2047), Told::Given(0))];
    come_to(&heap, &mut pass, &mut blocks, &rows)?;
    let block = blocks.first().map(|block| (block.place(), block.usable_words(), block.need()));
    assert_eq!(rt; block, Some((0, 2047, Need::Small(10))));
    let closed = close_alone(rt.alloc(), heap, pass)?;
    let expected = (geometry(1, 0, 1, 9), Some(1), Some(64), 3, 0);
    assert_eq!(rt; closed.as_ref().map(seen), Some(expected));
    Ok(())
}

#[test]
fn words_are_read_as_written(rt: HostRuntime) -> Result<(), Fail> {
    let (heap, mut pass, mut blocks) = open_alone(rt.alloc(), 4, 0, 9)?;
    let rows = [
        (Asked::Alloc(3), Told::Given(0)),
        (Asked::Write(0, 0, 5), Told::Wrote),
        (Asked::Write(0, 1, 6), Told::Wrote),
        (Asked::Write(0, 2, 7), Told::Wrote),
        (Asked::Read(0, 0), Told::Word(5)),
        (Asked::Read(0, 1), Told::Word(6)),
        (Asked::Read(0, 2), Told::Word(7)),
    ];
    come_to(&heap, &mut pass, &mut blocks, &rows)
}

// A shelf that is full gives the block back, which its owner may go on to use.
#[test]
fn a_shelf_holds_one_block(rt: HostRuntime) -> Result<(), Fail> {
    let (heap, mut pass, mut blocks) = open_alone(rt.alloc(), 4, 0, 9)?;
    let full = Told::Full {
        place: 4,
        found: 129,
    };
    let rows = [
        (Asked::Alloc(3), Told::Given(0)),
        (Asked::Put(0, 0), Told::Put),
        (Asked::Alloc(3), Told::Given(4)),
        (Asked::Put(0, 0), full),
        (Asked::Write(0, 0, 8), Told::Wrote),
        (Asked::Read(0, 0), Told::Word(8)),
        (Asked::Take(0), Told::Got(0)),
        (Asked::Take(1), Told::Empty),
    ];
    come_to(&heap, &mut pass, &mut blocks, &rows)
}

// Four superblocks of two blocks each are filled. The frees of their first blocks make them partial, and
// the free of the second block of the first makes that empty, while it stands in the list of partial ones.
#[test]
fn an_empty_superblock_is_cleared_and_the_call_goes_on(rt: HostRuntime) -> Result<(), Fail> {
    let (heap, mut pass, mut blocks) = open_alone(rt.alloc(), 4, 0, 20)?;
    let rows = [
        (Asked::Alloc(2047), Told::Given(0)),
        (Asked::Alloc(2047), Told::Given(2048)),
        (Asked::Alloc(2047), Told::Given(4096)),
        (Asked::Alloc(2047), Told::Given(6144)),
        (Asked::Alloc(2047), Told::Given(8192)),
        (Asked::Alloc(2047), Told::Given(10240)),
        (Asked::Alloc(2047), Told::Given(12288)),
        (Asked::Alloc(2047), Told::Given(14336)),
        (Asked::Free(0), Told::FreedAt(0)),
        (Asked::Free(1), Told::FreedAt(4096)),
        (Asked::Free(2), Told::FreedAt(8192)),
        (Asked::Free(3), Told::FreedAt(12288)),
        (Asked::Free(0), Told::FreedAt(2048)),
        (Asked::Alloc(2047), Told::Given(12288)),
        (Asked::Alloc(2047), Told::Given(8192)),
        (Asked::Alloc(2047), Told::Given(4096)),
    ];
    come_to(&heap, &mut pass, &mut blocks, &rows)?;
    assert_eq!(rt; pass.cleared(), 0);
    let rows = [(Asked::Alloc(2047), Told::Busy)];
    come_to(&heap, &mut pass, &mut blocks, &rows)?;
    assert_eq!(rt; (pass.idle(), pass.cleared(), pass.lost()), (false, 1, 0));
    let rows = [(Asked::Resume, Told::Given(0))];
    come_to(&heap, &mut pass, &mut blocks, &rows)?;
    assert_eq!(rt; (pass.idle(), pass.turns()), (true, 12));
    Ok(())
}

#[test]
fn a_block_has_at_most_64_units_and_no_run_is_given_twice(rt: HostRuntime) -> Result<(), Fail> {
    let (heap, mut pass, mut blocks) = open_alone(rt.alloc(), 1, 64, 9)?;
    let rows = [
        (Asked::Alloc(131_072), Told::TooLarge),
        (Asked::Alloc(131_071), Told::Given(4096)),
        (Asked::Alloc(131_071), Told::Refused),
    ];
    come_to(&heap, &mut pass, &mut blocks, &rows)
}

#[test]
fn who_has_taken_all_turns_is_spent(rt: HostRuntime) -> Result<(), Fail> {
    let (heap, mut pass, mut blocks) = open_alone(rt.alloc(), 2, 0, 2)?;
    let rows = [
        (Asked::Alloc(1), Told::Given(0)),
        (Asked::Alloc(1), Told::Given(2)),
        (Asked::Alloc(1), Told::Spent),
    ];
    come_to(&heap, &mut pass, &mut blocks, &rows)
}

// The numbers of steps come from a model of the machine that was written apart from it.
#[test]
fn calls_are_made_step_by_step(rt: HostRuntime) -> Result<(), Fail> {
    let (heap, mut pass, _) = open_alone(rt.alloc(), 2, 0, 9)?;
    assert!(rt; heap.step(&mut pass) == Stepped::Idle);
    let given = alloc_by_steps(&heap, &mut pass, 1).and_then(given_after);
    assert_eq!(rt; given, Some((2065, 0, 1)));
    assert_eq!(rt; (pass.idle(), pass.turns(), pass.won()), (true, 1, 3));
    let taken = take_by_steps(&heap, &mut pass, 0);
    assert!(rt; taken == Some((2, Stepped::Done(Ending::Empty))));
    let freed = call_on_eight(rt.alloc(), Request::Free)?;
    assert!(rt; freed == Some((4, Stepped::Done(Ending::Freed))));
    let wrote = call_on_eight(rt.alloc(), Request::Write(0, 9))?;
    assert!(rt; wrote == Some((1, Stepped::Done(Ending::Wrote))));
    let read = call_on_eight(rt.alloc(), Request::Read(0))?;
    assert!(rt; read == Some((1, Stepped::Done(Ending::Word(8)))));
    let put = call_on_eight(rt.alloc(), Request::Put(0))?;
    assert!(rt; put == Some((1, Stepped::Done(Ending::Put))));
    Ok(())
}
