//! Calls of the plain pool, one after another.

ghost use Rattle.std.specs.Prelude.{◌<◌, ◌≡◌, OnOk};
ghost use Rattle.heap_geometry.specs.declared.limits.TheConstants.{SHELVES};
ghost use Rattle.heap_geometry.specs.Geometry.{IsChecked};

use crate::expect::expect;
use crate::heaps::checked;
use heap_geometry::geometry::Geometry;
use heap_geometry::limits::SHELVES;
use plain_pool::answers::{PlainAlloc, PlainPut, PlainTake};
use plain_pool::pool::PlainPool;
use std::alloc::{AllocError, Global};
use std::process::Abort;

/// Allocates for caller 0, and puts what it is given on the shelf. Answers also whether it lies there.
fn shelve(pool: &mut PlainPool, need: u32, shelf: u8) -> Result<(PlainAlloc, bool), AllocError>
    requires callers { 0 < pool.old.geometry.callers }
    requires shelf { shelf < SHELVES }
    ensures { OnOk result (0 < pool.new.geometry.callers) }
{
    let answer = pool.alloc(0, need)?;
    if let PlainAlloc::Given { place, .. } = answer {
        let put = pool.put(0, place, shelf)?;
        return Ok((answer, put == PlainPut::Put));
    }
    Ok((answer, false))
}

/// Takes what lies on the shelf for caller 0, and frees it.
fn unshelve(pool: &mut PlainPool, shelf: u8) -> Result<PlainTake, AllocError>
    requires callers { 0 < pool.old.geometry.callers }
    requires shelf { shelf < SHELVES }
    ensures { OnOk result (0 < pool.new.geometry.callers) }
{
    let answer = pool.take(0, shelf)?;
    if let PlainTake::Got { place, .. } = answer {
        pool.free(0, place)?;
    }
    Ok(answer)
}

/// Allocates for caller 0, writes a word, and answers whether it held 0 before and holds this after.
fn write_and_read(pool: &mut PlainPool, need: u32, i: u32, v: u64) -> Result<bool, AllocError>
    requires { 0 < pool.old.geometry.callers }
    ensures { OnOk result (0 < pool.new.geometry.callers) }
{
    if let PlainAlloc::Given { place, words } = pool.alloc(0, need)? {
        if i < words {
            let before = pool.read(0, place, i);
            pool.write(0, place, i, v)?;
            return Ok(before == 0 && pool.read(0, place, i) == v);
        }
    }
    Ok(false)
}

/// A heap of one caller and one processor heap of each class.
fn small_heap<R: Abort>(rt: &R, frames: u32, units: u32) -> Geometry
    ensures checked { IsChecked result }
    ensures callers { result.callers ≡ 1 }
{
    let geometry = Geometry {
        frames,
        heaps: 1,
        units,
        callers: 1,
        turn_limit: 1,
    };
    checked(rt, geometry)
}

/// What is asked of a pool, and what it answers.
#[derive(Clone, Copy)]
enum Row {
    /// To allocate and put on a shelf, and whether the block lies there then.
    Shelve(u32, u8, PlainAlloc, bool),
    /// To take from there and free.
    Unshelve(u8, PlainTake),
    /// To allocate so many words, of which this one keeps what is written to it.
    Keep(u32, u32, u64),
}

/// Makes the calls, and answers whether they come to this.
fn make(pool: &mut PlainPool, row: Row) -> Result<bool, AllocError>
    requires { 0 < pool.old.geometry.callers }
    ensures { OnOk result (0 < pool.new.geometry.callers) }
{
    match row {
        Row::Shelve(need, shelf, answer, lies) if shelf < SHELVES => {
            let (told, put) = shelve(pool, need, shelf)?;
            Ok(told == answer && put == lies)
        }
        Row::Unshelve(shelf, answer) if shelf < SHELVES => Ok(unshelve(pool, shelf)? == answer),
        Row::Keep(need, i, v) => write_and_read(pool, need, i, v),
        _ => Ok(false),
    }
}

/// Makes these calls, one after the other, which come to this, and answers how many events there are.
fn make_all<R: Abort>(
    rt: &R,
    alloc: Global,
    geometry: Geometry,
    rows: &[Row],
) -> Result<usize, AllocError>
    requires checked { IsChecked geometry }
    requires callers { geometry.callers ≡ 1 }
{
    let mut pool = PlainPool::open(alloc, geometry)?;
    let mut number: u64 = 0;
    for row in rows {
        expect(rt, make(&mut pool, *row)?, number);
        number = number.saturating_add(1);
    }
    Ok(pool.events().len())
}

/// These calls come to this on a pool of so many frames and units. Answers how many events there are.
fn come_to<R: Abort>(rt: &R, alloc: Global, frames: u32, units: u32, rows: &[Row]) -> usize {
    match make_all(rt, alloc, small_heap(rt, frames, units), rows) {
        Ok(events) => events,
        Err(_) => panic!(rt; "no memory"),
    }
}

/// The calls are given this block, which then lies on the shelf.
fn given(need: u32, shelf: u8, place: u32, words: u32) -> Row {
    Row::Shelve(need, shelf, PlainAlloc::Given { place, words }, true)
}

/// They are refused.
fn refused(need: u32, shelf: u8) -> Row {
    Row::Shelve(need, shelf, PlainAlloc::Refused, false)
}

/// They find this block.
fn got(shelf: u8, place: u32, words: u32) -> Row {
    Row::Unshelve(shelf, PlainTake::Got { place, words })
}

#[test]
fn a_full_heap_refuses_and_a_bare_frame_changes_its_class(rt: HostRuntime) {
    let rows = [
        given(2047, 0, 0, 2047),
        given(2047, 1, 2048, 2047),
        refused(2047, 2),
        refused(1, 2),
        Row::Unshelve(2, PlainTake::Empty),
        got(1, 2048, 2047),
        got(0, 0, 2047),
        given(1, 0, 0, 1),
    ];
    expect(&rt, come_to(&rt, rt.alloc(), 1, 0, &rows) == 15, 15);
}

#[test]
fn the_least_free_place_is_given(rt: HostRuntime) {
    let rows = [
        given(3, 0, 0, 3),
        given(3, 1, 4, 3),
        given(7, 2, 4096, 7),
        got(0, 0, 3),
        given(2, 0, 0, 3),
        given(3, 3, 8, 3),
    ];
    let _ = come_to(&rt, rt.alloc(), 3, 0, &rows);
}

#[test]
fn a_large_need_is_given_the_least_run(rt: HostRuntime) {
    let rows = [
        given(2048, 0, 4096, 4095),
        given(4096, 1, 8192, 6143),
        refused(2048, 2),
        Row::Shelve(131_072, 2, PlainAlloc::TooLarge, false),
        got(0, 4096, 4095),
        refused(4096, 0),
        given(4095, 0, 4096, 4095),
    ];
    let _ = come_to(&rt, rt.alloc(), 1, 5, &rows);
}

#[test]
fn a_word_reads_as_it_was_written(rt: HostRuntime) {
    let _ = come_to(&rt, rt.alloc(), 1, 0, &[Row::Keep(3, 2, 7)]);
}

#[test]
fn a_full_shelf_takes_no_block(rt: HostRuntime) {
    let second = PlainAlloc::Given { place: 2, words: 1 };
    let rows = [given(1, 63, 0, 1), Row::Shelve(1, 63, second, false)];
    let _ = come_to(&rt, rt.alloc(), 1, 0, &rows);
}
