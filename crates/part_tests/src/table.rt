//! The order of the words, by the table of their numbers, and the five actions.

use crate::expect::expect;
use crate::heaps::{checked, seat_of};
use heap_geometry::geometry::Geometry;
use packed_words::anchor::{Anchor, AnchorState};
use packed_words::info::Info;
use std::process::Abort;
use word_table::action::{Action, apply};
use word_table::layout::Layout;
use word_table::name::WordName;
use word_table::seat::{Seat, Site};

const SMALL: Geometry = Geometry {
    frames: 4,
    heaps: 2,
    units: 2,
    callers: 1,
    turn_limit: 1,
};

const LARGEST: Geometry = Geometry {
    frames: 4096,
    heaps: 16,
    units: 64,
    callers: 16,
    turn_limit: 68_719_476_735,
};

/// Whether this word stands at this place of the table, and its place is this one.
fn stands(layout: &Layout, name: WordName, index: u32) -> bool {
    if index < layout.words() {
        let found = layout.name(index);
        found == name && layout.index(found) == index
    } else {
        false
    }
}

#[test]
fn the_largest_heap(rt: HostRuntime) {
    let layout = Layout::new(checked(&rt, LARGEST));
    expect(&rt, layout.words() == 17_050_398, 0);
    expect(&rt, layout.descriptors() == 45_856, 1);
    expect(&rt, stands(&layout, WordName::Shelf(63), 17_050_397), 2);
}

// 4 * 4096 + 2 * 2048 words of the arena, then three groups of 11 * (4 + 2 + 2 * 1) + 1 * 2 = 90 words,
// and two groups of 2 * 11 words, in which the words of one heap stand together.
#[test]
fn a_small_heap(rt: HostRuntime) {
    let layout = Layout::new(checked(&rt, SMALL));
    expect(&rt, layout.geometry() == SMALL, 0);
    expect(&rt, layout.descriptors() == 90, 1);
    expect(&rt, layout.words() == 20_877, 2);
    let rows = [
        (WordName::Arena(20_479), 20_479),
        (WordName::Anchor(0), 20_480),
        (WordName::Anchor(89), 20_569),
        (WordName::Next(0), 20_570),
        (WordName::Info(0), 20_660),
        (WordName::Info(89), 20_749),
        (WordName::Active(0, 0), 20_750),
        (WordName::Active(1, 0), 20_761),
        (WordName::Active(1, 3), 20_764),
        (WordName::Slot(0, 0), 20_772),
        (WordName::Slot(1, 10), 20_793),
        (WordName::ListHead(0), 20_794),
        (WordName::FrameNext(0), 20_805),
        (WordName::FrameHead, 20_809),
        (WordName::DescHead, 20_810),
        (WordName::Hazard(0), 20_811),
        (WordName::Units, 20_812),
        (WordName::Shelf(0), 20_813),
    ];
    for (name, index) in rows {
        expect(&rt, stands(&layout, name, index), u64::from(index));
    }
}

/// Whether an action on the word 12 finds it, leaves this word, and is won or not.
fn leaves(action: Action, after: u64, won: bool) -> bool {
    let (word, found) = apply(&action, 12);
    word == after && found.value == 12 && found.won == won
}

#[test]
fn actions(rt: HostRuntime) {
    let name = WordName::Units;
    expect(&rt, leaves(Action::Load(name), 12, true), 0);
    expect(&rt, leaves(Action::Store(name, 3), 3, true), 1);
    expect(&rt, leaves(Action::Cas(name, 12, 3), 3, true), 2);
    expect(&rt, leaves(Action::Cas(name, 11, 3), 12, false), 3);
    expect(&rt, leaves(Action::Swap(name, 3), 3, true), 4);
    expect(&rt, leaves(Action::And(name, 10), 8, true), 5);
}

/// A heap of three processor heaps and four callers.
const SHARED: Geometry = Geometry {
    frames: 4,
    heaps: 3,
    units: 2,
    callers: 4,
    turn_limit: 1,
};

/// The second to last of the callers, at blocks of 2048 words.
fn seat<R: Abort>(rt: &R) -> Seat {
    seat_of(rt, SHARED, 2, 10)
}

// 11 * (4 + 3 + 2 * 4) + 4 * 5 = 185 descriptors.
#[test]
fn seats(rt: HostRuntime) {
    let seat = seat(&rt);
    expect(&rt, seat.caller() == 2, 0);
    expect(&rt, seat.class() == 10, 1);
    expect(&rt, seat.heap() == 2, 2);
    expect(&rt, seat.geometry().frames == 4, 3);
    expect(&rt, seat.descriptors() == 185, 4);
    expect(&rt, seat.block_count() == 2, 5);
    expect(&rt, seat.place(3, 1) == 14_336, 6);
    let site = Site {
        seat,
        desc: 5,
        frame: 3,
    };
    expect(&rt, site.place(1) == 14_336, 7);
    let word = 3 + 2 * 65_536 + 10 * 16_777_216;
    expect(&rt, site.info_word() == word, 8);
}

/// Whether a word names this descriptor.
fn names(seat: Seat, word: u64, desc: u16) -> bool {
    match seat.desc_named(word) {
        Some(found) => found == desc,
        None => false,
    }
}

/// Whether a word holds this information.
fn informs(seat: Seat, word: u64, info: Info) -> bool {
    match seat.info(word) {
        Some(found) => found == info,
        None => false,
    }
}

/// Whether a word holds this anchor.
fn anchors(seat: Seat, word: u64, anchor: Anchor) -> bool {
    match seat.anchor(word) {
        Some(found) => found == anchor,
        None => false,
    }
}

// What a found word names, where the heap has it.
#[test]
fn found_words(rt: HostRuntime) {
    let seat = seat(&rt);
    expect(&rt, seat.desc_named(0).is_none(), 0);
    expect(&rt, names(seat, 1, 0), 1);
    expect(&rt, names(seat, 185, 184), 185);
    expect(&rt, seat.desc_named(186).is_none(), 186);
    let word = 3 + 2 * 65_536 + 10 * 16_777_216;
    expect(&rt, informs(seat, word, Info::new(3, 2, 10)), word);
    expect(&rt, seat.info(4).is_none(), 4);
    expect(&rt, seat.info(3 * 65_536).is_none(), 3 * 65_536);
    let anchor = Anchor::new(1, 0, AnchorState::Active, 0);
    expect(&rt, anchors(seat, 1, anchor), 2);
    expect(&rt, seat.anchor(2).is_none(), 3);
}
