//! Steps of a stack, by the numbers of the words.

use crate::expect::expect;
use crate::heaps::seat_of;
use crate::walk::{Row, leave, load, lost, store, walk, won};
use heap_geometry::geometry::Geometry;
use packed_words::head::Head;
use std::process::Abort;
use step_parts::stack::exit::StackExit;
use step_parts::stack::point::{Pile, StackPoint, plan_stack, settle_stack};
use word_table::action::{Action, apply};
use word_table::name::WordName::{self, FrameHead, FrameNext, ListHead, Next};
use word_table::seat::Seat;

/// A heap of these numbers has 111 descriptors.
const GEOMETRY: Geometry = Geometry {
    frames: 2,
    heaps: 1,
    units: 0,
    callers: 3,
    turn_limit: 100,
};

/// The seat of a caller, for class 9.
fn seat<R: Abort>(rt: &R, caller: u8) -> Seat {
    seat_of(rt, GEOMETRY, caller, 9)
}

/// The word that an action is on.
fn name_of(action: &Action) -> WordName {
    match *action {
        Action::Load(name)
        | Action::Store(name, _)
        | Action::Cas(name, _, _)
        | Action::Swap(name, _)
        | Action::And(name, _) => name,
    }
}

/// Where a word of the stack of two frames stands in the test's words: the head first. Each other
/// name is none of that stack's.
fn place_of(name: WordName) -> Option<usize> {
    match name {
        FrameHead => Some(0),
        FrameNext(0) => Some(1),
        FrameNext(1) => Some(2),
        _ => None,
    }
}

/// Makes one step over the words, and answers how it leaves the stack.
fn step(words: &mut [u64], at: &mut StackPoint) -> Option<StackExit> {
    let action = plan_stack(at);
    match place_of(name_of(&action)) {
        Some(place) if place < words.len() => {
            let (after, found) = apply(&action, words[place]);
            words[place] = after;
            settle_stack(at, found)
        }
        _ => None,
    }
}

/// Makes some steps, and answers how the last one leaves the stack.
fn steps(words: &mut [u64], at: &mut StackPoint, count: u8) -> Option<StackExit> {
    let mut exit = None;
    for _ in 0..count {
        exit = step(words, at);
    }
    exit
}

/// How a stack is left.
fn told(exit: Option<StackExit>) -> &'static str {
    match exit {
        Some(StackExit::Popped { index: 0, .. }) => "popped 0",
        Some(StackExit::Popped { index: 1, .. }) => "popped 1",
        Some(StackExit::Popped { index: 5, .. }) => "popped 5",
        Some(StackExit::Pushed { .. }) => "pushed",
        Some(StackExit::FoundEmpty { .. }) => "found to be empty",
        Some(StackExit::ConfirmedEmpty { .. }) => "confirmed",
        Some(_) => "something else",
        None => "not left",
    }
}

/// So it is left behind these steps.
fn leaves<R: Abort>(rt: &R, first: &StackPoint, rows: &[Row], exit: &str) {
    expect(rt, told(leave(rt, first, rows)) == exit, 0);
}

/// Behind some steps the head is this one, and the stack is left so.
fn come_to<R: Abort>(
    rt: &R,
    words: &mut [u64],
    at: &mut StackPoint,
    count: u8,
    head: u64,
    exit: &str,
) {
    expect(rt, told(steps(words, at, count)) == exit, head);
    expect(rt, !words.is_empty() && words[0] == head, head);
}

/// A caller's pop of a frame, at its begin.
fn pop<R: Abort>(rt: &R, caller: u8) -> StackPoint {
    StackPoint::LoadTop {
        seat: seat(rt, caller),
        pile: Pile::Frames,
    }
}

/// Whether a point is the begin of a pop.
fn is_begin(point: StackPoint) -> bool {
    matches!(point, StackPoint::LoadTop { .. })
}

/// The second caller's pop, which leaves this head, goes so.
fn other_pops<R: Abort>(rt: &R, words: &mut [u64], head: u64, exit: &str) {
    let mut second = pop(rt, 1);
    come_to(rt, words, &mut second, 3, head, exit);
}

/// So does its push of frame 0.
fn other_pushes<R: Abort>(rt: &R, words: &mut [u64], head: u64) {
    let mut push = StackPoint::LoadTopToPush {
        seat: seat(rt, 1),
        pile: Pile::Frames,
        index: 0,
    };
    come_to(rt, words, &mut push, 3, head, "pushed");
}

/// Whether a point exchanges this head for that one.
fn exchanges(point: &StackPoint, expected: u64, head: u64) -> bool {
    plan_stack(point) == Action::Cas(FrameHead, expected, head)
}

/// One caller reads the head and what lies below frame 0. Another pops both frames and pushes frame
/// 0 again, so that it is on top as before, but nothing lies below it. The tag tells the first
/// caller's pop apart, which is lost; made again, it pops frame 0.
#[test]
fn the_tag_tells_a_reused_frame(rt: HostRuntime) {
    let words: &mut [u64] = &mut [1, 2, 0];
    let mut first = pop(&rt, 0);
    come_to(&rt, words, &mut first, 2, 1, "not left");
    expect(&rt, exchanges(&first, 1, 65_538), 1);
    other_pops(&rt, words, 65_538, "popped 0");
    other_pops(&rt, words, 131_072, "popped 1");
    other_pushes(&rt, words, 131_073);
    come_to(&rt, words, &mut first, 1, 131_073, "not left");
    expect(&rt, is_begin(first), 2);
    come_to(&rt, words, &mut first, 3, 196_608, "popped 0");
}

/// Descriptor 5 is pushed on the list of its class, where a pop came between the first time, and
/// popped.
#[test]
fn a_list_of_partial_superblocks(rt: HostRuntime) {
    let pile = Pile::Partials;
    let seat = seat(&rt, 0);
    let push = [
        load(ListHead(9), 8),
        store(Next(5), 8, 0),
        lost(ListHead(9), 8, 6, 65_536),
        load(ListHead(9), 65_536),
        store(Next(5), 0, 8),
        won(ListHead(9), 65_536, 65_542),
    ];
    let first_point = StackPoint::LoadTopToPush {
        seat,
        pile,
        index: 5,
    };
    leaves(&rt, &first_point, &push, "pushed");

    let pop = [
        load(ListHead(9), 65_542),
        load(Next(5), 0),
        won(ListHead(9), 65_542, 131_072),
    ];
    let first_point = StackPoint::LoadTop { seat, pile };
    leaves(&rt, &first_point, &pop, "popped 5");
}

/// An empty stack is confirmed by an exchange of its head for itself, and where that is lost the pop
/// begins again.
#[test]
fn an_empty_stack(rt: HostRuntime) {
    leaves(
        &rt,
        &pop(&rt, 0),
        &[load(FrameHead, 65_536)],
        "found to be empty",
    );

    let confirm = StackPoint::ConfirmEmpty {
        seat: seat(&rt, 0),
        pile: Pile::Frames,
        head: Head::new(0, 1),
    };
    leaves(
        &rt,
        &confirm,
        &[won(FrameHead, 65_536, 65_536)],
        "confirmed",
    );
    let again = walk(&rt, &confirm, &[lost(FrameHead, 65_536, 65_536, 65_537)]);
    expect(&rt, is_begin(again), 2);
}

/// A head or a next word that names one more than there are leaves the point, and the last one is popped.
fn pops_the_last<R: Abort>(rt: &R, pile: Pile, head: WordName, next: WordName, most: u16) -> bool {
    let most = u64::from(most);
    let first = StackPoint::LoadTop {
        seat: seat(rt, 2),
        pile,
    };
    let rows = [
        load(head, most + 1),
        load(head, most),
        load(next, most + 1),
        load(next, most),
    ];
    matches!(walk(rt, &first, &rows), StackPoint::PopTop { .. })
}

/// The heap has two frames and 111 descriptors.
#[test]
fn words_that_are_not_expected(rt: HostRuntime) {
    let frames = pops_the_last(&rt, Pile::Frames, FrameHead, FrameNext(1), 2);
    expect(&rt, frames, 2);
    let partials = pops_the_last(&rt, Pile::Partials, ListHead(9), Next(110), 111);
    expect(&rt, partials, 111);
}
