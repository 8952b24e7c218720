//! Steps of one superblock, by the numbers of the words.

use crate::expect::expect;
use crate::heaps::{first_site, seat_of};
use crate::walk::{Row, leave, load, lost, stays, store, walk, won};
use heap_geometry::geometry::Geometry;
use std::process::Abort;
use step_parts::superblock::exit::BlockExit;
use step_parts::superblock::point::{BlockPoint, Share};
use word_table::name::WordName::{Active, Anchor, Arena, Hazard, Info};
use word_table::seat::{Seat, Site};

const GEOMETRY: Geometry = Geometry {
    frames: 1,
    heaps: 1,
    units: 0,
    callers: 2,
    turn_limit: 100,
};

/// The word of descriptor 0 in frame 0, of heap 0 and class 10.
const INFO: u64 = 10 << 24;

/// How a superblock is left.
fn told(exit: Option<BlockExit>) -> &'static str {
    match exit {
        Some(BlockExit::Given { index: 0, .. }) => "block 0",
        Some(BlockExit::Given { index: 1, .. }) => "block 1",
        Some(BlockExit::BecamePartial { stored: false, .. }) => "partial",
        Some(BlockExit::BecameEmpty { heap: 0, .. }) => "empty",
        Some(BlockExit::Discarded { .. }) => "not needed",
        Some(BlockExit::Returned { index: 64, .. }) => "credits returned",
        _ => "something else",
    }
}

/// So it is left behind these steps.
fn leaves<R: Abort>(rt: &R, first: &BlockPoint, rows: &[Row], exit: &str) {
    expect(rt, told(leave(rt, first, rows)) == exit, 0);
}

/// So a caller leaves an allocation in the active superblock of this class, by these steps.
fn reserves<R: Abort>(rt: &R, caller: u8, class: u8, rows: &[Row], exit: &str) {
    let first_point = BlockPoint::LoadActive {
        seat: seat_of(rt, GEOMETRY, caller, class),
    };
    leaves(rt, &first_point, rows, exit);
}

/// A superblock of class 10 has two blocks. It is installed with two credits, both blocks reserved.
/// The second caller takes the last credit and pops the first block, so the first caller's pop is
/// lost and made again.
#[test]
fn the_tag_tells_a_second_pop(rt: HostRuntime) {
    let active = Active(0, 10);
    let first = [
        load(active, 65),
        won(active, 65, 64),
        load(Info(0), INFO),
        load(Anchor(0), 0),
        load(Arena(0), 1),
        lost(Anchor(0), 0, 16_777_217, 20_971_521),
        load(Anchor(0), 20_971_521),
        load(Arena(2048), 0),
        won(Anchor(0), 20_971_521, 37_748_736),
        store(Arena(2048), 0, 0),
    ];
    reserves(&rt, 0, 10, &first, "block 1");

    let second = [
        load(active, 64),
        won(active, 64, 0),
        load(Info(0), INFO),
        load(Anchor(0), 0),
        load(Arena(0), 1),
        won(Anchor(0), 0, 20_971_521),
        store(Arena(0), 0, 1),
    ];
    reserves(&rt, 1, 10, &second, "block 0");
}

/// So the second caller leaves the free of this block, by these steps.
fn frees<R: Abort>(rt: &R, index: u16, rows: &[Row], exit: &str) {
    let first_point = BlockPoint::LoadPrefix {
        seat: seat_of(rt, GEOMETRY, 1, 10),
        frame: 0,
        index,
    };
    leaves(rt, &first_point, rows, exit);
}

/// The free of the first of two handed-out blocks makes the full superblock partial, and the free
/// of the second makes it empty, which stores the hazard word and loads the heap first.
#[test]
fn two_frees_empty_a_superblock(rt: HostRuntime) {
    let first = [
        load(Arena(0), 0),
        load(Anchor(0), 37_748_736),
        store(Arena(0), 0, 0),
        won(Anchor(0), 37_748_736, 41_945_088),
    ];
    frees(&rt, 0, &first, "partial");

    let second = [
        load(Arena(2048), 0),
        load(Anchor(0), 41_945_088),
        store(Hazard(1), 1, 0),
        load(Info(0), INFO),
        store(Arena(2048), 0, 0),
        won(Anchor(0), 41_945_088, 46_139_393),
    ];
    frees(&rt, 1, &second, "empty");
}

/// The last blocks of a new superblock of class 0 are linked, and it is installed with 64 credits
/// while 1,983 blocks stay on its count. Where another was installed first, it is not needed.
#[test]
fn a_new_superblock(rt: HostRuntime) {
    let rows = [
        store(Arena(4092), 2047, 0),
        store(Arena(4094), 0, 0),
        store(Info(0), 0, 0),
        store(Anchor(0), 4_061_185, 0),
        won(Active(0, 0), 0, 127),
        store(Arena(0), 0, 0),
    ];
    let seat = seat_of(&rt, GEOMETRY, 0, 0);
    let link = BlockPoint::LinkBlock {
        site: first_site(seat),
        index: 2046,
    };
    leaves(&rt, &link, &rows, "block 0");

    let install = BlockPoint::InstallSuperblock {
        site: first_site(seat),
    };
    leaves(
        &rt,
        &install,
        &[lost(Active(0, 0), 0, 127, 128)],
        "not needed",
    );
}

/// Who takes the last credit of a superblock of class 1 takes 64 more off its count, and offers
/// them, or returns them where another superblock is active by now.
#[test]
fn the_last_credit(rt: HostRuntime) {
    let active = Active(0, 1);
    let rows = [
        load(active, 64),
        won(active, 64, 0),
        load(Info(0), 1 << 24),
        load(Anchor(0), 1_058_928_704),
        load(Arena(256), 65),
        won(Anchor(0), 1_058_928_704, 1_075_574_849),
        lost(active, 0, 127, 191),
        load(Anchor(0), 1_075_574_849),
        won(Anchor(0), 1_075_574_849, 1_084_094_529),
    ];
    reserves(&rt, 0, 1, &rows, "credits returned");
}

/// Whether a point stores the prefix of block 3.
fn stores_the_prefix(point: BlockPoint) -> bool {
    matches!(point, BlockPoint::StorePrefix { index: 3, .. })
}

/// A pop that a grant pays for leaves the state, and what was granted beside is offered.
#[test]
fn a_granted_pop(rt: HostRuntime) {
    let rows = [
        load(Anchor(0), 3),
        load(Arena(12), 4103),
        won(Anchor(0), 3, 16_777_223),
        won(Active(0, 1), 0, 65),
    ];
    let first_point = BlockPoint::LoadAnchor {
        site: first_site(seat_of(&rt, GEOMETRY, 0, 1)),
        share: Share::Grant { more: 2 },
    };
    let point = walk(&rt, &first_point, &rows);
    expect(&rt, stores_the_prefix(point), 0);
}

/// The seat of the first caller, for class 10.
fn seat<R: Abort>(rt: &R) -> Seat {
    seat_of(rt, GEOMETRY, 0, 10)
}

/// Descriptor 0 and frame 0, for that seat.
fn site<R: Abort>(rt: &R) -> Site {
    first_site(seat(rt))
}

/// A heap of these numbers has 72 descriptors, one frame and one processor heap. A word that names
/// another one leaves the point, as do an anchor with a third block and a large block's prefix.
#[test]
fn words_that_are_not_expected(rt: HostRuntime) {
    let active = BlockPoint::LoadActive { seat: seat(&rt) };
    stays(&rt, &active, 73 * 64);
    stays(&rt, &active, 63);
    let prefix = BlockPoint::LoadPrefix {
        seat: seat(&rt),
        frame: 0,
        index: 0,
    };
    stays(&rt, &prefix, 2 * 72);
    stays(&rt, &prefix, 3);
    let push = BlockPoint::LoadPushAnchor {
        site: site(&rt),
        index: 0,
        stored: false,
    };
    stays(&rt, &push, 2);
    let give_back = BlockPoint::LoadReturn {
        site: site(&rt),
        index: 0,
        more: 1,
    };
    stays(&rt, &give_back, 2);
    let info = BlockPoint::LoadInfo {
        seat: seat(&rt),
        desc: 0,
        share: Share::Credit,
    };
    stays(&rt, &info, INFO + 1);
    stays(&rt, &info, INFO + 65_536);
    let pop = BlockPoint::LoadAnchor {
        site: site(&rt),
        share: Share::Credit,
    };
    stays(&rt, &pop, 2);
}
