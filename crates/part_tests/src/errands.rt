//! Steps of one caller's errand, each of which finds a given word.

use crate::expect::expect;
use errand_steps::errand::{Errand, event, plan};
use errand_steps::reply::{Begun, Offer, Progress, Reply};
use heap_geometry::geometry::Geometry;
use heap_geometry::need::Need;
use pool_model::event::Event;
use std::process::Abort;
use word_table::action::{Action, Found};
use word_table::name::WordName;

/// One frame, one processor heap, three units and two callers of three turns each.
const GEOMETRY: Geometry = Geometry {
    frames: 1,
    heaps: 1,
    units: 3,
    callers: 2,
    turn_limit: 3,
};

/// What a step finds in its word, whether its exchange is won, and what it then does, tells and answers.
type Row = (u64, bool, Action, Option<Event>, Progress);

/// A row of a step that tells nothing, and behind which the call goes on.
fn goes_on(value: u64, action: Action) -> Row {
    (value, true, action, None, Progress::More)
}

/// Makes a step, which does what its row says.
fn step<R: Abort>(rt: &R, errand: &mut Errand, row: &Row) {
    let (value, won, action, told, progress) = *row;
    let found = Found { value, won };
    if errand.idle() {
        panic!(rt; "the caller is in no call");
    }
    let planned = plan(errand);
    expect(rt, planned == action, value);
    expect(rt, event(errand, found) == told, value);
    expect(rt, errand.go_on(planned, found) == progress, value);
}

/// Makes these steps.
fn steps<R: Abort>(rt: &R, errand: &mut Errand, rows: &[Row]) {
    for row in rows {
        step(rt, errand, row);
    }
}

/// Begins an allocation, which is answered by this.
fn alloc<R: Abort>(rt: &R, errand: &mut Errand, need: u32, begun: Begun) {
    if !errand.idle() {
        panic!(rt; "the caller is in a call");
    }
    expect(rt, errand.begin_alloc(need) == begun, u64::from(need));
}

/// Whether a caller is idle, and has this many turns, won and lost exchanges, and no cleared superblocks.
fn has_counts(errand: &Errand, turns: u64, won: u64, lost: u64) -> bool {
    errand.idle()
        && errand.turns() == turns
        && errand.won() == won
        && errand.lost() == lost
        && errand.cleared() == 0
}

/// The steps that take a run of two units. The first exchange is lost.
fn run_steps() -> [Row; 5] {
    let given = Event::Alloc {
        caller: 1,
        need: 2048,
        place: 6144,
    };
    let reply = Reply::Given {
        place: 6144,
        need: Need::Large(2),
    };
    let units = Action::Load(WordName::Units);
    let first = Action::Cas(WordName::Units, 0, 3);
    let second = Action::Cas(WordName::Units, 1, 7);
    let prefix = Action::Store(WordName::Arena(6144), 5);
    [
        goes_on(0, units),
        (1, false, first, None, Progress::Lost),
        goes_on(1, units),
        (1, true, second, Some(given), Progress::More),
        (0, true, prefix, None, Progress::Done(reply)),
    ]
}

/// A run of two units is taken in three steps, and the exchange that takes it gives the block. A lost
/// exchange loads the units again. It takes no turn; a small allocation does.
#[test]
fn a_run_is_taken(rt: HostRuntime) {
    let mut errand = Errand::open(1, GEOMETRY);
    alloc(&rt, &mut errand, 2048, Begun::Started);
    steps(&rt, &mut errand, &run_steps());
    expect(&rt, errand.caller() == 1, 0);
    expect(&rt, has_counts(&errand, 0, 1, 1), 1);
}

/// The steps of an allocation that finds nothing partial and no frame, where this descriptor is the first
/// available one. The last step answers so.
fn refused_steps(desc: u16, progress: Progress) -> [Row; 12] {
    let name = u64::from(desc) + 1;
    let looked = Event::Looked {
        caller: 0,
        class: 10,
    };
    let refused = Event::Refuse {
        caller: 0,
        need: 2047,
    };
    let look = Action::Cas(WordName::ListHead(10), 0, 0);
    let refuse = Action::Cas(WordName::FrameHead, 65_536, 65_536);
    [
        goes_on(0, Action::Load(WordName::Active(0, 10))),
        goes_on(0, Action::Load(WordName::Slot(0, 10))),
        goes_on(0, Action::Load(WordName::ListHead(10))),
        (0, true, look, Some(looked), Progress::More),
        goes_on(name, Action::Load(WordName::DescHead)),
        goes_on(0, Action::Store(WordName::Hazard(0), name)),
        goes_on(name, Action::Load(WordName::DescHead)),
        goes_on(name + 1, Action::Load(WordName::Next(desc))),
        goes_on(name, Action::Cas(WordName::DescHead, name, name + 1)),
        goes_on(name, Action::Store(WordName::Hazard(0), 0)),
        goes_on(65_536, Action::Load(WordName::FrameHead)),
        (65_536, true, refuse, Some(refused), progress),
    ]
}

/// Makes an allocation that finds nothing partial and no frame.
fn refuse<R: Abort>(rt: &R, errand: &mut Errand, desc: u16, progress: Progress) {
    alloc(rt, errand, 2047, Begun::Started);
    steps(rt, errand, &refused_steps(desc, progress));
}

/// The steps that push the first retired descriptor that no hazard word names.
fn push_steps() -> [Row; 5] {
    let refused = Progress::Done(Reply::Refused);
    let push = Action::Cas(WordName::DescHead, 4, 2);
    [
        goes_on(0, Action::Load(WordName::Hazard(0))),
        goes_on(1, Action::Load(WordName::Hazard(1))),
        goes_on(4, Action::Load(WordName::DescHead)),
        goes_on(0, Action::Store(WordName::Next(1), 4)),
        (4, true, push, None, refused),
    ]
}

/// Makes three allocations, each of which finds nothing partial and no frame. The third one retires a
/// descriptor too many.
fn refuse_thrice<R: Abort>(rt: &R, errand: &mut Errand) {
    let refused = Progress::Done(Reply::Refused);
    refuse(rt, errand, 0, refused);
    refuse(rt, errand, 1, refused);
    refuse(rt, errand, 2, Progress::More);
    steps(rt, errand, &push_steps());
}

/// An allocation that finds nothing partial and no frame is refused, and retires the descriptor that it
/// took. With two callers the third retired one is too many: the caller reads each hazard word, and
/// pushes the first retired descriptor that none of them names. An exchange of a word for itself doesn't
/// count as won. Each of these allocations took a turn, and none is left.
#[test]
fn the_third_retired_descriptor_is_one_too_many(rt: HostRuntime) {
    let mut errand = Errand::open(0, GEOMETRY);
    refuse_thrice(&rt, &mut errand);
    expect(&rt, has_counts(&errand, 3, 4, 0), 0);
    alloc(&rt, &mut errand, 0, Begun::Spent);
    alloc(&rt, &mut errand, 131_072, Begun::TooLarge);
    expect(&rt, errand.idle(), 1);
}

/// To free a block of the largest class begins at its prefix word.
fn free_small<R: Abort>(rt: &R) {
    let mut errand = Errand::open(0, GEOMETRY);
    errand.begin_free(2048, Need::Small(10));
    step(
        rt,
        &mut errand,
        &goes_on(0, Action::Load(WordName::Arena(2048))),
    );
}

/// So does to free a run of two units.
fn free_large<R: Abort>(rt: &R) {
    let mut errand = Errand::open(0, GEOMETRY);
    errand.begin_free(4096, Need::Large(2));
    step(
        rt,
        &mut errand,
        &goes_on(5, Action::Load(WordName::Arena(4096))),
    );
}

/// To write a word of a block is one step.
fn write<R: Abort>(rt: &R) {
    let mut errand = Errand::open(0, GEOMETRY);
    errand.begin_write(2048, Need::Small(10), 5, 7);
    let wrote = Event::Write {
        caller: 0,
        place: 2048,
        i: 5,
        v: 7,
    };
    let store = Action::Store(WordName::Arena(2054), 7);
    let done = Progress::Done(Reply::Wrote);
    step(rt, &mut errand, &(0, true, store, Some(wrote), done));
}

/// So is to read it.
fn read<R: Abort>(rt: &R) {
    let mut errand = Errand::open(0, GEOMETRY);
    errand.begin_read(2048, Need::Small(10), 5);
    let load = Action::Load(WordName::Arena(2054));
    let done = Progress::Done(Reply::Word(7));
    step(rt, &mut errand, &(7, true, load, None, done));
}

/// Each call begins at the word that it needs first.
#[test]
fn calls_begin_at_their_words(rt: HostRuntime) {
    free_small(&rt);
    free_large(&rt);
    write(&rt);
    read(&rt);
}

/// A put offers its block until it has ended.
fn put<R: Abort>(rt: &R) {
    let mut errand = Errand::open(0, GEOMETRY);
    errand.begin_put(4096, Need::Large(2), 4);
    let offer = Offer {
        place: 4096,
        need: Need::Large(2),
    };
    expect(rt, errand.offered() == Some(offer), 0);
    let shelved = Event::Put {
        caller: 0,
        place: 4096,
        shelf: 4,
    };
    let exchange = Action::Cas(WordName::Shelf(4), 0, 524_434);
    let done = Progress::Done(Reply::Put);
    step(rt, &mut errand, &(0, true, exchange, Some(shelved), done));
}

/// A take offers none.
fn take<R: Abort>(rt: &R) {
    let mut errand = Errand::open(0, GEOMETRY);
    errand.begin_take(4);
    expect(rt, errand.offered().is_none(), 1);
    step(
        rt,
        &mut errand,
        &goes_on(0, Action::Load(WordName::Shelf(4))),
    );
}

#[test]
fn shelves_are_the_first_words_of_puts_and_takes(rt: HostRuntime) {
    put(&rt);
    take(&rt);
}
