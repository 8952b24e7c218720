//! The statuses of words, of long inputs and of edges that fail.

use crate::edges::{Edges, STEADY, is_unwritten, leaves_at, run_unread};
use crate::running::{Left, ROOM, Told, failing_sink};
use command_line::status::{READ_FAULT, REFUSED, REPORTED, TOO_MANY, USAGE, WRITE_FAULT};
use std::process::Abort;
use std::sync::Wait;
use std::test::Fail;
use std::thread::Threads;
use trace_text::limits::MAX_INPUT;

/// Lines that are no command.
const OTHER_WORDS: &[&str] = &[
    "",
    "Replay",
    "replay x",
    "--help",
    "schedule x",
    "make threadtest 1000001 1",
    "make threads 5 1",
    "make threadtest 05 1",
    "make threadtest +5 1",
    "make threadtest 5",
    "make threadtest 5 18446744073709551616",
    "print pipeline 5 00",
    "print larson 5 -1",
    "prints larson 5 1",
    "pipe 0 2 5",
    "pipe 5 2 5",
    "pipe 1 100001 5",
    "pipe 1 1 18446744073709551616",
    "pipe 01 1 1",
    "pipe 1 1",
    "store",
    "store 1000001",
    "store 01",
    "store x",
    "stores 1",
    "cache",
    "cache 0",
    "cache 65",
    "cache x",
    "--",
    "- replay",
    "replay -x",
    "replay replay replay replay replay",
];

/// A line is refused, and neither edge has been called.
fn is_no_command<R: Threads + Wait + Abort + AllocGlobal + Sync>(
    rt: &R,
    line: &str,
) -> Result<(), Fail> {
    let mut sink = failing_sink(rt.alloc(), ROOM, 1)?;
    let told = run_unread(rt, rt.alloc(), line, &mut sink)?;
    assert!(rt;
        told == Some((USAGE, Left::Nothing)) && is_unwritten(&mut sink),
        "{line}"
    );
    Ok(())
}

#[test]
fn other_words_are_no_command(rt: HostRuntime) -> Result<(), Fail> {
    for line in OTHER_WORDS {
        is_no_command(&rt, line)?;
    }
    Ok(())
}

/// A run whose source gives 10 bytes a call and fails at this one ends so, and writes this.
fn is_read<R: Threads + Wait + AllocGlobal + Sync>(
    rt: &R,
    input: &str,
    call: u64,
    ends: Told,
    written: &str,
) -> Result<(), Fail> {
    let edges = Edges {
        given: 10,
        failing_read: call,
        ..STEADY
    };
    leaves_at(rt, call, "replay", input.as_bytes(), edges, ends, written)
}

/// The calls at which five reads of 48 bytes fail, or the sixth, which finds the end.
const FAILED_READS: &[u64] = &[1, 2, 3, 4, 5, 6];

/// A seventh call is not made.
#[test]
fn a_failed_read_ends_the_run(rt: HostRuntime) -> Result<(), Fail> {
    let input = "heap 4 1 2\nlane\na 0 1 5\na 1 3 7\nc 1\nf 0\nf 1\nend\n";
    for call in FAILED_READS {
        is_read(&rt, input, *call, (READ_FAULT, Left::Nothing), "")?;
    }
    let report =
        "heap 4 1 2 lanes 1\nlane 0\ngiven 1\ngiven 3\nsum 24\nfreed\nfreed\nlive 0 words 0\n";
    is_read(&rt, input, 7, (REPORTED, Left::Shared), report)
}

/// A run whose sink takes 8 bytes a call and fails at this one ends so, and this stands there.
fn is_written<R: Threads + Wait + AllocGlobal + Sync>(
    rt: &R,
    input: &str,
    call: u64,
    ends: Told,
    written: &str,
) -> Result<(), Fail> {
    let edges = Edges {
        taken: 8,
        failing_write: call,
        ..STEADY
    };
    leaves_at(rt, call, "replay", input.as_bytes(), edges, ends, written)
}

const EMPTY: &str = "heap 4 1 2\nend\n";

/// Inputs, the call of the sink that fails, how the run ends, and what stands there: the beginning of a report, or
/// of a refusal.
const FAILED_WRITES: &[(&str, u64, Told, &str)] = &[
    (EMPTY, 1, (WRITE_FAULT, Left::Shared), ""),
    (EMPTY, 2, (WRITE_FAULT, Left::Shared), "heap 4 1"),
    (EMPTY, 3, (WRITE_FAULT, Left::Shared), "heap 4 1 2 lanes"),
    (
        EMPTY,
        4,
        (WRITE_FAULT, Left::Shared),
        "heap 4 1 2 lanes 0\nlive ",
    ),
    (
        EMPTY,
        5,
        (WRITE_FAULT, Left::Shared),
        "heap 4 1 2 lanes 0\nlive 0 words ",
    ),
    (
        EMPTY,
        6,
        (REPORTED, Left::Shared),
        "heap 4 1 2 lanes 0\nlive 0 words 0\n",
    ),
    ("", 2, (WRITE_FAULT, Left::Nothing), "line 1 c"),
    ("", 3, (REFUSED, Left::Nothing), "line 1 cause 2\n"),
];

#[test]
fn a_failed_write_ends_the_run(rt: HostRuntime) -> Result<(), Fail> {
    for (input, call, ends, written) in FAILED_WRITES {
        is_written(&rt, input, *call, *ends, written)?;
    }
    Ok(())
}

/// A run on a comment of so many bytes ends so, and writes this.
fn is_long<R: Threads + Wait + AllocGlobal + Sync>(
    rt: &R,
    length: usize,
    status: u8,
    written: &str,
) -> Result<(), Fail> {
    let input = vec![in rt.alloc(); b'#'; length]?;
    let ends = (status, Left::Nothing);
    leaves_at(
        rt,
        length as u64,
        "replay",
        input.as_slice(),
        STEADY,
        ends,
        written,
    )
}

/// The longest input that is read, and one byte more.
#[test]
fn long_inputs(rt: HostRuntime) -> Result<(), Fail> {
    is_long(&rt, MAX_INPUT, REFUSED, "line 2 cause 2\n")?;
    is_long(&rt, MAX_INPUT + 1, TOO_MANY, "")
}
