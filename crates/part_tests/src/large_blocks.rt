//! Steps of a large block and of a shelf, by the numbers of the words.

use crate::expect::expect;
use heap_geometry::geometry::Geometry;
use heap_geometry::need::Need;
use std::process::Abort;
use step_parts::large::exit::LargeExit;
use step_parts::large::point::{LargePoint, plan_large, settle_large};
use step_parts::large::run::UnitRun;
use step_parts::large::units::first_run;
use step_parts::large::want::Want;
use word_table::action::{Action, apply};
use word_table::name::WordName::{Arena, Shelf, Units};

const GEOMETRY: Geometry = Geometry {
    frames: 1,
    heaps: 1,
    units: 2,
    callers: 2,
    turn_limit: 100,
};

/// Makes a step, which makes this action on this word and leaves that one, and answers how it leaves the part.
fn step<R: Abort>(
    rt: &R,
    at: &mut LargePoint,
    action: Action,
    before: u64,
    after: u64,
) -> Option<LargeExit> {
    let (word, found) = apply(&action, before);
    expect(rt, plan_large(at) == action, before);
    expect(rt, word == after, before);
    settle_large(at, found)
}

/// How the part is left.
fn told(exit: Option<LargeExit>) -> &'static str {
    match exit {
        Some(LargeExit::GivenRun { place: 4096, .. }) => "a run",
        Some(LargeExit::NoRun) => "no run",
        Some(LargeExit::FreedRun) => "a freed run",
        Some(LargeExit::Wrote) => "written",
        Some(LargeExit::Word { value: 10 }) => "the word 10",
        Some(LargeExit::PutDone) => "put",
        Some(LargeExit::ShelfFull { found: 524_434 }) => "full",
        Some(
            LargeExit::Got {
                place: 4096,
                need: Need::Large(2),
            },
        ) => "got",
        Some(LargeExit::NothingThere) => "nothing",
        Some(
            LargeExit::Missed {
                expected: 524_434,
                found: 0,
            },
        ) => "missed",
        Some(_) => "something else",
        None => "not left",
    }
}

/// Makes such a step, which leaves the part so.
fn ends<R: Abort>(
    rt: &R,
    at: &mut LargePoint,
    action: Action,
    before: u64,
    after: u64,
    exit: &str,
) {
    expect(rt, told(step(rt, at, action, before, after)) == exit, after);
}

/// An allocation of 2,048 words takes the first two units behind the one frame.
#[test]
fn a_large_block_takes_two_units(rt: HostRuntime) {
    let mut at = LargePoint::LoadUnits {
        want: Want::new(GEOMETRY, 2),
    };
    ends(&rt, &mut at, Action::Load(Units), 0, 0, "not left");
    ends(&rt, &mut at, Action::Cas(Units, 0, 3), 0, 3, "not left");
    ends(&rt, &mut at, Action::Store(Arena(4096), 5), 0, 5, "a run");
}

/// It gives the units back.
#[test]
fn a_large_block_is_freed(rt: HostRuntime) {
    let mut at = LargePoint::LoadRunPrefix {
        place: 4096,
        run: UnitRun::new(0, 2),
    };
    ends(&rt, &mut at, Action::Load(Arena(4096)), 5, 5, "not left");
    ends(
        &rt,
        &mut at,
        Action::And(Units, u64::MAX - 3),
        3,
        0,
        "a freed run",
    );
}

/// Where no run is free, an exchange of the word with itself finds that again.
#[test]
fn no_run_is_free(rt: HostRuntime) {
    let mut at = LargePoint::TakeRun {
        want: Want::new(GEOMETRY, 3),
        bits: 0,
    };
    let exchange = Action::Cas(Units, 0, 0);
    let mut again = at;
    ends(&rt, &mut at, exchange, 0, 0, "no run");
    ends(&rt, &mut again, exchange, 1, 1, "not left");
    ends(&rt, &mut again, Action::Load(Units), 1, 1, "not left");
}

/// A block is put on a shelf, which is full then.
#[test]
fn a_block_is_put_on_a_shelf(rt: HostRuntime) {
    let mut first = LargePoint::PutBlock {
        shelf: 5,
        place: 4096,
        need: Need::Large(2),
    };
    let exchange = Action::Cas(Shelf(5), 0, 524_434);
    let mut second = first;
    ends(&rt, &mut first, exchange, 0, 524_434, "put");
    ends(&rt, &mut second, exchange, 524_434, 524_434, "full");
}

/// It is taken from there, which leaves nothing; where another caller took it first, it is missed. Where
/// nothing lies on a shelf, an exchange of the word with itself finds that again.
#[test]
fn a_block_is_taken_from_a_shelf(rt: HostRuntime) {
    let load = Action::Load(Shelf(5));
    let take = Action::Cas(Shelf(5), 524_434, 0);
    let mut at = LargePoint::LoadShelf { shelf: 5 };
    ends(&rt, &mut at, load, 524_434, 524_434, "not left");
    let mut late = at;
    ends(&rt, &mut at, take, 524_434, 0, "got");
    ends(&rt, &mut late, take, 0, 0, "missed");

    let mut empty = LargePoint::LoadShelf { shelf: 5 };
    ends(&rt, &mut empty, load, 0, 0, "not left");
    ends(
        &rt,
        &mut empty,
        Action::Cas(Shelf(5), 0, 0),
        0,
        0,
        "nothing",
    );
}

/// The usable words of a block stand behind its prefix word.
#[test]
fn usable_words(rt: HostRuntime) {
    let mut write = LargePoint::StoreWord {
        place: 4096,
        index: 3,
        value: 10,
    };
    ends(
        &rt,
        &mut write,
        Action::Store(Arena(4100), 10),
        0,
        10,
        "written",
    );
    let mut read = LargePoint::LoadWord {
        place: 4096,
        index: 3,
    };
    ends(
        &rt,
        &mut read,
        Action::Load(Arena(4100)),
        10,
        10,
        "the word 10",
    );
}

/// There is no such run, which is told by a unit that no heap has.
const NONE: u8 = 64;

/// Where the first run of so many units begins among so many.
fn first_of(bits: u64, units: u8, n: u8) -> u8 {
    if units > 64 || n < 1 || n > 64 {
        return u8::MAX;
    }
    match first_run(bits, units, n) {
        Some(first) => first,
        None => NONE,
    }
}

/// The lowest unit that begins so many clear bits among the first ones.
#[test]
fn first_runs(rt: HostRuntime) {
    let rows = [
        (0, 64, 64, 0),
        (1, 64, 64, NONE),
        (1, 64, 63, 1),
        (u64::MAX, 64, 1, NONE),
        (u64::MAX >> 1, 64, 1, 63),
        (u64::MAX >> 1, 63, 1, NONE),
        (0b1011, 4, 1, 2),
        (0b1011, 4, 2, NONE),
        (0b1011, 6, 2, 4),
        (0b10_0101, 8, 1, 1),
        (0b10_0101, 8, 2, 3),
        (0b10_0101, 8, 3, NONE),
        (0, 3, 4, NONE),
        (0, 0, 1, NONE),
    ];
    for (bits, units, n, first) in rows {
        expect(&rt, first_of(bits, units, n) == first, bits);
    }
}
