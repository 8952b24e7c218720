//! Small runs of a pipe. Expected values are worked by hand.

use crate::expect::expect;
use std::alloc::{AllocError, Global};
use std::process::Abort;
use std::sync::Wait;
use std::test::Fail;
use worked_programs::pipes::{Ask, Came, Line};
use worked_programs::relay::relay;

/// Whether an answer is this one.
fn is_came(answer: Option<Came>, came: Came) -> bool {
    match answer {
        Some(found) => found == came,
        None => false,
    }
}

/// What each row asks comes to what it says. Behind that so many notes of sender 0 were pushed and popped, and
/// none of a sender that there isn't.
fn come_to<R: Abort + Wait>(
    rt: &R,
    alloc: Global,
    rows: &[(Ask, Came)],
    sent: u64,
    taken: u64,
) -> Result<(), AllocError> {
    let mut line = Line::open(alloc)?;
    let mut number: u64 = 0;
    for row in rows {
        let (ask, came) = *row;
        expect(rt, is_came(line.ask(rt, ask), came), number);
        number = number.saturating_add(1);
    }
    match line.close(rt, alloc)? {
        Some(log) => {
            expect(rt, log.sent(0) == sent && log.taken(0) == taken, number);
            expect(rt, log.sent(3) == 0 && log.taken(3) == 0, number);
        }
        None => panic!(rt; "the line is not closed"),
    }
    Ok(())
}

#[test]
fn a_full_shelf_keeps_the_next_block_back(rt: HostRuntime) -> Result<(), Fail> {
    let rows = [
        (Ask::Allocate, Came::At(0)),
        (Ask::Send, Came::Sent),
        (Ask::Allocate, Came::At(4)),
        (Ask::Send, Came::Full(129)),
        (Ask::Receive, Came::Got(0, 0, 0)),
        (Ask::Receive, Came::Nothing),
        (Ask::Send, Came::Sent),
        (Ask::Flush, Came::Flushed(true)),
    ];
    Ok(come_to(&rt, rt.alloc(), &rows, 2, 1)?)
}

#[test]
fn a_block_that_is_taken_without_its_note_leaves_the_notes_in_their_order(
    rt: HostRuntime,
) -> Result<(), Fail> {
    let rows = [
        (Ask::Allocate, Came::At(0)),
        (Ask::Send, Came::Sent),
        (Ask::Take, Came::At(0)),
        (Ask::Allocate, Came::At(4)),
        (Ask::Send, Came::Queued),
        (Ask::Flush, Came::Flushed(false)),
        (Ask::Receive, Came::Other(4, 0)),
        (Ask::Flush, Came::Flushed(true)),
        (Ask::Receive, Came::Gone(1)),
    ];
    Ok(come_to(&rt, rt.alloc(), &rows, 2, 2)?)
}

#[test]
fn a_word_goes_from_one_thread_to_another(rt: HostRuntime) -> Result<(), Fail> {
    match relay(&rt, rt.alloc(), 7)? {
        Some(word) => expect(&rt, word == 7, word),
        None => panic!(rt; "no word came"),
    }
    Ok(())
}
