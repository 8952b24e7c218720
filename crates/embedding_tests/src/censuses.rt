//! Heaps that are opened, used and closed. The expected numbers come from a model of the machine that was
//! written apart from it.

ghost use Rattle.heap_geometry.specs.Geometry.{IsWithin};
ghost use Rattle.heap_geometry.specs.declared.limits.TheConstants.{MAX_UNITS};

use crate::expect::expect;
use heap_census::census::{Census, ClassCount};
use heap_census::counting::census;
use heap_scripts::alone::{close_alone, open_alone};
use heap_scripts::hand::come_to;
use heap_scripts::request::{Request, Told};
use std::alloc::Global;
use std::process::Abort;
use std::test::Fail;

/// What a heap of four frames and so many units holds behind these calls, which come to this.
fn counted(alloc: Global, units: u32, rows: &[(Request, Told)]) -> Result<Census, Fail>
    requires { IsWithin 0 MAX_UNITS units }
{
    let (heap, mut pass, mut blocks) = open_alone(alloc, 4, units, 99)?;
    come_to(&heap, &mut pass, &mut blocks, rows)?;
    match close_alone(alloc, heap, pass)? {
        Some(closed) => Ok(census(&closed)),
        None => Err(Fail::new(format_args!("the caller is in a call"))),
    }
}

/// Whether a class has so many blocks, free, reserved and live ones.
fn has(census: &Census, class: usize, blocks: u64, free: u64, reserved: u64, live: u64) -> bool {
    match census.per_class.get(class) {
        Some(count) => is_count(*count, blocks, free, reserved, live),
        None => false,
    }
}

/// Whether these are the numbers of a class.
fn is_count(count: ClassCount, blocks: u64, free: u64, reserved: u64, live: u64) -> bool {
    count.blocks == blocks && count.free == free && count.reserved == reserved && count.live == live
}

/// The classes between the second and the last have no blocks.
fn others_are_unused<R: Abort>(rt: &R, census: &Census) {
    for class in 2..10 {
        expect(rt, has(census, class, 0, 0, 0, 0), class as u64);
    }
}

#[test]
fn freed_blocks_are_free_or_offered(rt: HostRuntime) -> Result<(), Fail> {
    let rows = [
        (Request::Alloc(1), Told::Given(0)),
        (Request::Alloc(3), Told::Given(4096)),
        (Request::Free(0), Told::FreedAt(0)),
        (Request::Free(0), Told::FreedAt(4096)),
    ];
    let census = counted(rt.alloc(), 2, &rows)?;
    expect(&rt, has(&census, 0, 2048, 1984, 64, 0), 0);
    expect(&rt, has(&census, 1, 1024, 960, 64, 0), 1);
    others_are_unused(&rt, &census);
    expect(&rt, has(&census, 10, 0, 0, 0, 0), 10);
    expect(&rt, census.free_frames == 2, 11);
    expect(&rt, census.free_units == 2, 12);
    Ok(())
}

// A superblock of class 10 has two blocks. The first one is full until one of its blocks is freed, and so
// is partial, while the third block comes from a second one.
#[test]
fn live_blocks_are_counted_by_their_classes(rt: HostRuntime) -> Result<(), Fail> {
    let rows = [
        (Request::Alloc(1), Told::Given(0)),
        (Request::Alloc(3), Told::Given(4096)),
        (Request::Alloc(2047), Told::Given(8192)),
        (Request::Alloc(2047), Told::Given(10_240)),
        (Request::Alloc(2047), Told::Given(12_288)),
        (Request::Alloc(2048), Told::Given(16_384)),
        (Request::Free(3), Told::FreedAt(10_240)),
        (Request::Free(0), Told::FreedAt(0)),
    ];
    let census = counted(rt.alloc(), 3, &rows)?;
    expect(&rt, has(&census, 0, 2048, 1984, 64, 0), 0);
    expect(&rt, has(&census, 1, 1024, 959, 64, 1), 1);
    others_are_unused(&rt, &census);
    expect(&rt, has(&census, 10, 4, 1, 1, 2), 10);
    expect(&rt, census.free_frames == 0, 11);
    expect(&rt, census.free_units == 1, 12);
    Ok(())
}
