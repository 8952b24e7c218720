//! Reports of traces that have one report, whatever order the threads of their lanes make their steps in.

use crate::running::{Left, all_are_written};
use command_line::status::REPORTED;
use std::sync::Wait;
use std::test::Fail;
use std::thread::Threads;

/// Blocks that are given, filled and summed.
const GIVEN: &[(&str, &str)] = &[
    // The sum is of rising words.
    (
        "heap 4 1 2\nlane\na 0 1 5\na 1 3 7\nc 1\nf 0\nf 1\nend\n",
        "heap 4 1 2 lanes 1\nlane 0\ngiven 1\ngiven 3\nsum 24\nfreed\nfreed\nlive 0 words 0\n",
    ),
    // No lane.
    ("heap 4 1 2\nend\n", "heap 4 1 2 lanes 0\nlive 0 words 0\n"),
    // A need of no word is served by one.
    (
        "heap 1 1 0\nlane\na 0 0 9\nc 0\nend\n",
        "heap 1 1 0 lanes 1\nlane 0\ngiven 1\nsum 9\nlive 1 words 1\n",
    ),
    // Words and sums wrap: the words are the greatest one, 0 and 1.
    (
        "heap 1 1 0\nlane\na 0 3 18446744073709551615\nc 0\nend\n",
        "heap 1 1 0 lanes 1\nlane 0\ngiven 3\nsum 0\nlive 1 words 3\n",
    ),
];

/// Two lanes with frames and turns to spare: every allocation is given, whatever the other lane holds.
const ROOM_TO_SPARE: &[(&str, &str)] = &[(
    "heap 32 2 0 6\nlane\na 0 1 5\na 1 100 6\nc 1\nf 0\na 0 3 7\nlane\na 0 1023 1\na 1 1 9\nw 1 4\nc 1\nf 1\na 1 2 8\nc 1\nend\n",
    "heap 32 2 0 6 lanes 2\nlane 0\ngiven 1\ngiven 127\nsum 8763\nfreed\ngiven 3\nlane 1\ngiven 1023\ngiven 1\nfilled\nsum 4\nfreed\ngiven 3\nsum 27\nlive 4 words 1156\n",
)];

/// Turns that are used up.
const TURNS: &[(&str, &str)] = &[
    // The third small allocation finds no turn left of two.
    (
        "heap 1 1 0 2\nlane\na 0 1 1\na 1 1 1\na 2 1 1\nf 0\nend\n",
        "heap 1 1 0 2 lanes 1\nlane 0\ngiven 1\ngiven 1\nspent\nfreed\nlive 1 words 1\n",
    ),
    (
        "heap 4 1 2 2\nlane\na 0 1 1\na 1 1 2\na 2 1 3\nend\n",
        "heap 4 1 2 2 lanes 1\nlane 0\ngiven 1\ngiven 1\nspent\nlive 2 words 2\n",
    ),
    // A resize to another small need takes a turn, and none to a large one or to the need that the block has.
    (
        "heap2 4 1 2 2\nlane\na 0 1 1\nr 0 3\nr 0 1\na 1 1 1\nr 0 2048\nr 0 1\nr 0 2048\nend\n",
        "heap2 4 1 2 2 lanes 1\nlane 0\ngiven 1\nresized 3\nspent\nspent\nresized 4095\nspent\nkept 4095\nlive 1 words 4095\n",
    ),
];

/// Arenas that are used up.
const ARENAS: &[(&str, &str)] = &[
    // A full arena refuses.
    (
        "heap 1 1 0\nlane\na 0 2047 1\na 1 2047 2\na 2 2047 3\nend\n",
        "heap 1 1 0 lanes 1\nlane 0\ngiven 2047\ngiven 2047\nrefused\nlive 2 words 4094\n",
    ),
    // A frame that is bare again serves another class.
    (
        "heap 1 1 0\nlane\na 0 2047 1\na 1 2047 2\na 2 2047 3\nf 0\nf 1\na 0 1 4\nend\n",
        "heap 1 1 0 lanes 1\nlane 0\ngiven 2047\ngiven 2047\nrefused\nfreed\nfreed\ngiven 1\nlive 1 words 1\n",
    ),
    // An active superblock keeps its frame, also where all its blocks are free.
    (
        "heap 1 1 0\nlane\na 0 1 1\nf 0\na 1 3 1\nend\n",
        "heap 1 1 0 lanes 1\nlane 0\ngiven 1\nfreed\nrefused\nlive 0 words 0\n",
    ),
    // Ten frames are bare, each behind the active superblock of a class, and the eleventh class finds none.
    (
        "heap 10 1 0\nlane\na 0 1 1\nf 0\na 0 3 1\nf 0\na 0 7 1\nf 0\na 0 15 1\nf 0\na 0 31 1\nf 0\na 0 63 1\nf 0\na 0 127 1\nf 0\na 0 255 1\nf 0\na 0 511 1\nf 0\na 0 1023 1\nf 0\na 0 2047 1\nend\n",
        "heap 10 1 0 lanes 1\nlane 0\ngiven 1\nfreed\ngiven 3\nfreed\ngiven 7\nfreed\ngiven 15\nfreed\ngiven 31\nfreed\ngiven 63\nfreed\ngiven 127\nfreed\ngiven 255\nfreed\ngiven 511\nfreed\ngiven 1023\nfreed\nrefused\nlive 0 words 0\n",
    ),
    // A large block takes two units of three, and the next wants two.
    (
        "heap 4 1 3\nlane\na 0 2048 1\na 1 2048 1\nend\n",
        "heap 4 1 3 lanes 1\nlane 0\ngiven 4095\nrefused\nlive 1 words 4095\n",
    ),
    // The largest block takes all units that a heap can have.
    (
        "heap 1 1 64\nlane\na 0 131071 1\nend\n",
        "heap 1 1 64 lanes 1\nlane 0\ngiven 131071\nlive 1 words 131071\n",
    ),
];

/// Blocks that are resized.
const RESIZES: &[(&str, &str)] = &[
    // Two words and three have the same blocks. The four words behind the three that are copied are 0, and then
    // one of the seven is left. An empty register has nothing to resize.
    (
        "heap2 4 1 2\nlane\na 0 3 10\nr 0 2\nc 0\nr 0 7\nc 0\nr 0 1\nc 0\nr 1 5\nf 0\nend\n",
        "heap2 4 1 2 lanes 1\nlane 0\ngiven 3\nkept 3\nsum 33\nresized 7\nsum 33\nresized 1\nsum 10\nskipped\nfreed\nlive 0 words 0\n",
    ),
    // The only frame holds the largest small blocks, so no smaller one is found, and the register keeps its own.
    (
        "heap2 1 1 0\nlane\na 0 2047 1\na 1 2047 2\nr 0 1\nc 0\nend\n",
        "heap2 1 1 0 lanes 1\nlane 0\ngiven 2047\ngiven 2047\nrefused\nsum 2096128\nlive 2 words 4094\n",
    ),
];

/// The report of both texts of a trace.
const ONE_REPORT: &str =
    "heap 1 1 0 lanes 1\nlane 0\ngiven 1\nskipped\nfilled\nsum 4\nfreed\nskipped\nskipped\nlive 0 words 0\n";

/// A text, and the one that is printed of it.
const TEXT_AND_PRINTED: &[(&str, &str)] = &[
    // Line ends of two bytes, a comment, an empty line, and a last line without an end.
    (
        "heap 1 1 0\r\n# note\r\n\r\nlane\r\na 0 1 18446744073709551615\r\na 0 1 2\r\nw 0 4\r\nc 0\r\nf 0\r\nf 0\r\nc 0\r\nend",
        ONE_REPORT,
    ),
    (
        "heap 1 1 0\nlane\na 0 1 18446744073709551615\na 0 1 2\nw 0 4\nc 0\nf 0\nf 0\nc 0\nend\n",
        ONE_REPORT,
    ),
];

/// `replay` writes these reports of these traces.
fn all_are_reported<R: Threads + Wait + AllocGlobal + Sync>(
    rt: &R,
    cases: &[(&str, &str)],
) -> Result<(), Fail> {
    all_are_written(rt, "replay", (REPORTED, Left::Shared), cases)
}

#[test]
fn blocks_are_given_filled_and_summed(rt: HostRuntime) -> Result<(), Fail> {
    all_are_reported(&rt, GIVEN)
}

#[test]
fn lanes_with_room_to_spare_have_one_report(rt: HostRuntime) -> Result<(), Fail> {
    all_are_reported(&rt, ROOM_TO_SPARE)
}

#[test]
fn turns_are_used_up(rt: HostRuntime) -> Result<(), Fail> {
    all_are_reported(&rt, TURNS)
}

#[test]
fn an_arena_is_used_up(rt: HostRuntime) -> Result<(), Fail> {
    all_are_reported(&rt, ARENAS)
}

#[test]
fn blocks_are_resized(rt: HostRuntime) -> Result<(), Fail> {
    all_are_reported(&rt, RESIZES)
}

#[test]
fn a_text_and_its_printed_form_are_one_trace(rt: HostRuntime) -> Result<(), Fail> {
    all_are_reported(&rt, TEXT_AND_PRINTED)
}
