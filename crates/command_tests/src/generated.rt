//! Commands on workloads, which read nothing.

use crate::edges::{Edges, STEADY, leaves_at, run_unread};
use crate::running::{Left, run_on, wide_sink, writes};
use command_line::status::{REPORTED, WRITE_FAULT};
use std::process::Abort;
use std::sync::Wait;
use std::test::Fail;
use std::thread::Threads;
use text_tests::printed::printed;
use trace_text::limits::MAX_INPUT;

#[test]
fn workloads_are_summed_up(rt: HostRuntime) -> Result<(), Fail> {
    let ends = (REPORTED, Left::Shared);
    let many =
        "make threadtest 100000 7\nlanes 8 operations 300000\ngiven 100000 words 700000\nrefused 0 spent 0\nfreed 100000\nchecked 100000\nlive 0 words 0\n";
    writes(&rt, "make threadtest 100000 7", "", ends, many)?;
    let few =
        "make scalability 10 3\nlanes 8 operations 20\ngiven 10 words 10\nrefused 0 spent 0\nfreed 10\nchecked 0\nlive 0 words 0\n";
    writes(&rt, "make scalability 10 3", "", ends, few)
}

#[test]
fn empty_workload_is_printed(rt: HostRuntime) -> Result<(), Fail> {
    let text = "heap 1024 8 0\nlane\nlane\nlane\nlane\nlane\nlane\nlane\nlane\nend\n";
    let ends = (REPORTED, Left::Nothing);
    writes(&rt, "print scalability 0 7", "", ends, text)
}

/// The text of a workload is that of the trace that it names.
fn is_printed_again<R: Abort + AllocGlobal>(rt: &R, text: &[u8]) -> Result<(), Fail> {
    assert!(rt; text.starts_with("heap 1024 8 0\nlane\na ".as_bytes()));
    assert!(rt; text.len() <= MAX_INPUT);
    let again = printed(rt.alloc(), text)?;
    assert!(rt; again.as_slice() == text);
    Ok(())
}

#[test]
fn what_is_printed_is_printed_again(rt: HostRuntime) -> Result<(), Fail> {
    let (told, sink) = run_on(&rt, rt.alloc(), "print larson 1000 3", "")?;
    assert!(rt; told == (REPORTED, Left::Nothing));
    is_printed_again(&rt, sink.bytes())
}

/// A workload's run ends so, and has not called its source.
fn reads_nothing<R: Threads + Wait + Abort + AllocGlobal + Sync>(
    rt: &R,
    line: &str,
    left: Left,
) -> Result<(), Fail> {
    let mut sink = wide_sink(rt.alloc())?;
    let told = run_unread(rt, rt.alloc(), line, &mut sink)?;
    assert!(rt; told == Some((REPORTED, left)), "{line}");
    Ok(())
}

#[test]
fn workloads_read_nothing(rt: HostRuntime) -> Result<(), Fail> {
    reads_nothing(&rt, "make larson 1 1", Left::Shared)?;
    reads_nothing(&rt, "print larson 1 1", Left::Nothing)
}

/// A sink that takes 8 bytes and then fails.
const CUT: Edges = Edges {
    taken: 8,
    failing_write: 2,
    ..STEADY
};

#[test]
fn failed_writes_of_workloads(rt: HostRuntime) -> Result<(), Fail> {
    let ends = (WRITE_FAULT, Left::Shared);
    leaves_at(
        &rt,
        1,
        "make scalability 1 1",
        "".as_bytes(),
        CUT,
        ends,
        "make sca",
    )?;
    let ends = (WRITE_FAULT, Left::Nothing);
    leaves_at(
        &rt,
        2,
        "print scalability 1 1",
        "".as_bytes(),
        CUT,
        ends,
        "heap 102",
    )
}
