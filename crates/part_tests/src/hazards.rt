//! Steps at the stack of available descriptors and at the hazard words, by the words' numbers.

ghost use Rattle.std.specs.Prelude.{[], ◌∷◌, ◌≡◌};

use crate::expect::expect;
use crate::heaps::seat_of;
use crate::walk::{Row, leave, load, lost, stays, store, walk, won};
use heap_geometry::geometry::Geometry;
use std::process::Abort;
use step_parts::hazard::exit::DescExit;
use step_parts::hazard::held::Held;
use step_parts::hazard::point::DescPoint;
use step_parts::hazard::retired::Retired;
use word_table::name::WordName::{DescHead, Hazard, Next};
use word_table::seat::Seat;

/// A heap of these numbers has 72 descriptors.
const GEOMETRY: Geometry = Geometry {
    frames: 1,
    heaps: 1,
    units: 0,
    callers: 2,
    turn_limit: 100,
};

/// The seat of the second caller, for class 9.
fn seat<R: Abort>(rt: &R) -> Seat {
    seat_of(rt, GEOMETRY, 1, 9)
}

/// How the stack or the hazard words are left.
fn told(exit: Option<DescExit>) -> &'static str {
    match exit {
        Some(DescExit::Got { desc: 3, .. }) => "got",
        Some(DescExit::Pushed { desc: 7, .. }) => "pushed",
        Some(DescExit::Cleared { .. }) => "cleared",
        _ => "something else",
    }
}

/// So it is left behind these steps.
fn leaves<R: Abort>(rt: &R, first: &DescPoint, rows: &[Row], exit: &str) {
    expect(rt, told(leave(rt, first, rows)) == exit, 0);
}

/// A pop stores its hazard word and loads the head again. It begins anew where the head has changed
/// meanwhile, and where its exchange is lost. The hazard word is cleared once the pop is won.
#[test]
fn a_pop_begins_anew_where_the_head_changed(rt: HostRuntime) {
    let rows = [
        load(DescHead, 1),
        store(Hazard(1), 1, 0),
        load(DescHead, 3),
        load(DescHead, 3),
        store(Hazard(1), 3, 1),
        load(DescHead, 3),
        load(Next(2), 2),
        lost(DescHead, 3, 2, 4),
        load(DescHead, 4),
        store(Hazard(1), 4, 3),
        load(DescHead, 4),
        load(Next(3), 0),
        won(DescHead, 4, 0),
        store(Hazard(1), 0, 4),
    ];
    let first_point = DescPoint::LoadDescHead { seat: seat(&rt) };
    leaves(&rt, &first_point, &rows, "got");
}

/// A push stores the head that it found in the descriptor's word, and begins anew where its
/// exchange is lost.
#[test]
fn a_push_begins_anew_where_it_is_lost(rt: HostRuntime) {
    let rows = [
        load(DescHead, 4),
        store(Next(7), 4, 0),
        lost(DescHead, 4, 8, 0),
        load(DescHead, 0),
        store(Next(7), 0, 4),
        won(DescHead, 0, 8),
    ];
    let first_point = DescPoint::LoadHeadToPush {
        seat: seat(&rt),
        desc: 7,
    };
    leaves(&rt, &first_point, &rows, "pushed");
}

/// What a scan that ends so has noted.
fn held_by(exit: DescExit) -> Held {
    match exit {
        DescExit::Scanned { held, .. } => held,
        _ => Held::nothing(),
    }
}

/// What a scan has noted that reads these hazard words, in the order of the callers.
fn scanned<R: Abort>(rt: &R, first: u64, second: u64) -> Held {
    let first_point = DescPoint::ReadHazard {
        seat: seat(rt),
        held: Held::nothing(),
        at: 0,
    };
    let rows = [load(Hazard(0), first), load(Hazard(1), second)];
    match leave(rt, &first_point, &rows) {
        Some(exit) => held_by(exit),
        None => Held::nothing(),
    }
}

/// A scan reads each caller's hazard word, and notes which descriptor it names. The last descriptor's name is
/// 72; a hazard word that names a later one names none.
#[test]
fn a_scan_reads_each_hazard_word(rt: HostRuntime) {
    let held = scanned(&rt, 5, 9);
    for desc in [0, 1, 2, 3, 5, 6, 7, 9] {
        expect(&rt, !held.names(desc), u64::from(desc));
    }
    expect(&rt, held.names(4), 4);
    expect(&rt, held.names(8), 8);
    let held = scanned(&rt, 72, 73);
    expect(&rt, held.names(71), 71);
    expect(&rt, !held.names(72), 72);
}

/// Clearing the hazard word is one step.
#[test]
fn a_hazard_word_is_cleared(rt: HostRuntime) {
    let clear = DescPoint::ClearHazard { seat: seat(&rt) };
    leaves(&rt, &clear, &[store(Hazard(1), 0, 3)], "cleared");
}

/// Whether a point stores the hazard word of the last descriptor.
fn guards_the_last(point: DescPoint) -> bool {
    matches!(point, DescPoint::StoreHazard { desc: 71, .. })
}

/// The last descriptor's name is 72. A word that names a later one leaves the point, as does a head
/// of no descriptor where one is to be taken. A word that names the last one is one that is expected.
#[test]
fn words_that_are_not_expected(rt: HostRuntime) {
    let seat = seat(&rt);
    let first = DescPoint::LoadDescHead { seat };
    stays(&rt, &first, 0);
    stays(&rt, &first, 73);
    stays(&rt, &DescPoint::LoadNextDesc { seat, desc: 0 }, 73);
    stays(&rt, &DescPoint::LoadHeadToPush { seat, desc: 0 }, 73);
    let guarded = walk(&rt, &first, &[load(DescHead, 72)]);
    expect(&rt, guards_the_last(guarded), 72);
}

/// Which descriptor is picked, where the callers hold this.
fn picked(retired: &Retired, first: u16, second: u16) -> Option<u16> {
    let mut held = Held::nothing();
    held.note(0, first);
    held.note(1, second);
    retired.pick(&held)
}

/// Whether it is this one.
fn picks(retired: &Retired, first: u16, second: u16, desc: u16) -> bool {
    match picked(retired, first, second) {
        Some(found) => found == desc,
        None => false,
    }
}

/// The descriptors 4, 0 and 9 are retired, in this order.
fn three_retired() -> Retired
    ensures { result ≡ 4 ∷ 0 ∷ 9 ∷ [] }
{
    let mut retired = Retired::new();
    retired.add(4);
    retired.add(0);
    retired.add(9);
    retired
}

/// With two callers, one of three retired descriptors is always free to go. A hazard word names a
/// descriptor by its index plus 1; the longest retired one is picked.
#[test]
fn one_of_three_is_not_held_by_two(rt: HostRuntime) {
    expect(&rt, picked(&Retired::new(), 0, 0).is_none(), 0);
    let retired = three_retired();
    expect(&rt, retired.len() == 3, 1);
    expect(&rt, picks(&retired, 0, 0, 4), 2);
    expect(&rt, picks(&retired, 4, 9, 4), 3);
    expect(&rt, picks(&retired, 0, 5, 0), 4);
    expect(&rt, picks(&retired, 1, 5, 9), 5);
    expect(&rt, picks(&retired, 10, 5, 0), 6);
    expect(&rt, picks(&retired, 1, 10, 4), 7);
}

#[test]
fn a_removed_one_is_not_picked(rt: HostRuntime) {
    let mut retired = three_retired();
    retired.remove(0);
    expect(&rt, retired.len() == 2, 0);
    expect(&rt, picks(&retired, 0, 0, 4), 1);
    expect(&rt, picks(&retired, 5, 0, 9), 2);
    expect(&rt, picked(&retired, 10, 5).is_none(), 3);
}
