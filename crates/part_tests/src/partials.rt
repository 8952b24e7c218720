//! Steps of partial superblocks, by the numbers of the words.

use crate::expect::expect;
use crate::heaps::{first_site, seat_of};
use crate::walk::{Row, leave, load, lost, stays, store, walk, won};
use heap_geometry::geometry::Geometry;
use std::process::Abort;
use step_parts::partial::exit::PartialExit;
use step_parts::partial::point::PartialPoint;
use word_table::action::Action;
use word_table::name::WordName::{Anchor, Info, Slot};
use word_table::seat::Seat;

/// A heap of these numbers has 94 descriptors.
const GEOMETRY: Geometry = Geometry {
    frames: 2,
    heaps: 2,
    units: 0,
    callers: 2,
    turn_limit: 100,
};

/// A superblock of class 10 of which one block is free, the first.
const PARTIAL: u64 = 41_945_088;

/// A superblock of class 10 of which both blocks are free.
const EMPTY: u64 = 46_139_393;

/// The seat of the first caller, for class 10.
fn seat<R: Abort>(rt: &R) -> Seat {
    seat_of(rt, GEOMETRY, 0, 10)
}

/// How a superblock is left.
fn told(exit: Option<PartialExit>) -> &'static str {
    match exit {
        Some(PartialExit::SlotEmpty { .. }) => "an empty slot",
        Some(PartialExit::Granted { more: 0, .. }) => "one block",
        Some(PartialExit::Granted { more: 64, .. }) => "65 blocks",
        Some(PartialExit::TookEmpty { .. }) => "nothing to grant",
        Some(PartialExit::SlotFilled { .. }) => "a filled slot",
        Some(PartialExit::Displaced { desc: 93, .. }) => "the last one comes out",
        Some(PartialExit::NotInSlot { .. }) => "not in the slot",
        Some(PartialExit::Removed { desc: 4, .. }) => "removed",
        Some(PartialExit::ListedEmpty { desc: 0, .. }) => "listed, empty",
        Some(PartialExit::ListedPartial { desc: 0, .. }) => "listed, partial",
        _ => "something else",
    }
}

/// So it is left behind these steps.
fn leaves<R: Abort>(rt: &R, first: &PartialPoint, rows: &[Row], exit: &str) {
    expect(rt, told(leave(rt, first, rows)) == exit, 0);
}

/// The one free block of a superblock is granted, which makes it full.
#[test]
fn the_last_block_is_granted(rt: HostRuntime) {
    let rows = [
        load(Slot(0, 10), 1),
        won(Slot(0, 10), 1, 0),
        load(Info(0), 10 << 24),
        store(Info(0), 10 << 24, 10 << 24),
        load(Anchor(0), PARTIAL),
        won(Anchor(0), PARTIAL, 37_748_736),
    ];
    let first_point = PartialPoint::LoadSlot { seat: seat(&rt) };
    leaves(&rt, &first_point, &rows, "one block");
}

/// Of 70 free blocks 65 are granted, by a caller of another processor heap than the one before. The
/// first exchanges of the slot and of the anchor are lost.
#[test]
fn the_most_is_granted(rt: HostRuntime) {
    let rows = [
        load(Slot(1, 1), 8),
        lost(Slot(1, 1), 8, 0, 0),
        load(Slot(1, 1), 7),
        won(Slot(1, 1), 7, 0),
        load(Info(6), 16_777_217),
        store(Info(6), 16_842_753, 16_777_217),
        load(Anchor(6), 8_529_923),
        lost(Anchor(6), 8_529_923, 8_195, 8_531_971),
        load(Anchor(6), 8_531_971),
        won(Anchor(6), 8_531_971, 10_243),
    ];
    let first_point = PartialPoint::LoadSlot {
        seat: seat_of(&rt, GEOMETRY, 1, 1),
    };
    leaves(&rt, &first_point, &rows, "65 blocks");
}

/// A superblock that became partial goes into the slot of its processor heap, and the one that
/// stood there, if any, comes out.
#[test]
fn slots_are_filled(rt: HostRuntime) {
    let owner = PartialPoint::LoadOwner {
        seat: seat(&rt),
        desc: 4,
    };
    let put = walk(&rt, &owner, &[load(Info(4), (10 << 24) + 65_537)]);
    let swap = Action::Swap(Slot(1, 10), 5);
    leaves(&rt, &put, &[(swap, 0, true)], "a filled slot");
    leaves(&rt, &put, &[(swap, 94, true)], "the last one comes out");
}

/// So an empty superblock of descriptor 4 is taken out of the slot, by these steps.
fn take_out<R: Abort>(rt: &R, rows: &[Row], exit: &str) {
    let first = PartialPoint::LoadHeldSlot {
        seat: seat(rt),
        desc: 4,
        heap: 1,
    };
    leaves(rt, &first, rows, exit);
}

/// A superblock that became empty is taken out of the slot where it stands there.
#[test]
fn an_empty_superblock_leaves_the_slot(rt: HostRuntime) {
    let slot = Slot(1, 10);
    take_out(&rt, &[load(slot, 5), won(slot, 5, 0)], "removed");
    take_out(&rt, &[load(slot, 4)], "not in the slot");
    take_out(
        &rt,
        &[load(slot, 5), lost(slot, 5, 0, 0)],
        "not in the slot",
    );
}

/// So a grant goes, where the anchor is this.
fn grants<R: Abort>(rt: &R, anchor: u64, exit: &str) {
    let grant = PartialPoint::LoadGrantAnchor {
        site: first_site(seat(rt)),
    };
    leaves(rt, &grant, &[load(Anchor(0), anchor)], exit);
}

/// So descriptor 0 of a list is found, where its anchor is this.
fn lists<R: Abort>(rt: &R, anchor: u64, exit: &str) {
    let first = PartialPoint::LoadListedAnchor {
        seat: seat(rt),
        desc: 0,
    };
    leaves(rt, &first, &[load(Anchor(0), anchor)], exit);
}

/// An anchor of which only the state is looked at may name a block that the class has not.
#[test]
fn empty_superblocks_are_told(rt: HostRuntime) {
    grants(&rt, EMPTY, "nothing to grant");
    grants(&rt, EMPTY + 1, "nothing to grant");
    lists(&rt, EMPTY, "listed, empty");
    lists(&rt, EMPTY + 1, "listed, empty");
    lists(&rt, PARTIAL, "listed, partial");
    lists(&rt, PARTIAL + 2, "listed, partial");
}

/// A word that names a descriptor, a frame or a processor heap that the heap has not leaves the
/// point, as does, for a grant, an anchor with a third block. An empty slot is none of these.
#[test]
fn words_that_are_not_expected(rt: HostRuntime) {
    let seat = seat(&rt);
    let slot = PartialPoint::LoadSlot { seat };
    let info = PartialPoint::LoadTakenInfo { seat, desc: 0 };
    let owner = PartialPoint::LoadOwner { seat, desc: 0 };
    let put = PartialPoint::PutSlot {
        seat,
        desc: 0,
        heap: 0,
    };
    let grant = PartialPoint::LoadGrantAnchor {
        site: first_site(seat),
    };
    stays(&rt, &slot, 95);
    stays(&rt, &info, (10 << 24) + 2);
    stays(&rt, &info, (10 << 24) + 131_072);
    stays(&rt, &owner, (10 << 24) + 2);
    stays(&rt, &owner, (10 << 24) + 131_072);
    stays(&rt, &put, 95);
    stays(&rt, &grant, PARTIAL + 2);
    leaves(&rt, &slot, &[load(Slot(0, 10), 0)], "an empty slot");
}
