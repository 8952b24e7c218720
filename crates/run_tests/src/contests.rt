//! Lanes that all want what only one of them can have.

use command_line::status::REPORTED;
use command_tests::running::{Left, run_on};
use std::alloc::{AllocError, Global};
use std::process::Abort;
use std::test::Fail;

/// Sixteen lanes that each ask for all units of the heap.
fn greedy_lanes(alloc: Global) -> Result<String, AllocError> {
    let lanes = "lane\na 0 131071 1\n".repeat(alloc, 16)?;
    ["heap 16 16 64\n", lanes.as_str(), "end\n"].join(alloc, "")
}

/// How many lines a text has, and how many of them are these two.
fn counts_of(text: &str, one: &str, other: &str) -> (u32, u32, u32) {
    let mut lines: u32 = 0;
    let mut ones: u32 = 0;
    let mut others: u32 = 0;
    for line in text.lines() {
        lines = lines.saturating_add(1);
        if line == one {
            ones = ones.saturating_add(1);
        } else if line == other {
            others = others.saturating_add(1);
        }
    }
    (lines, ones, others)
}

/// A report says that one of the sixteen lanes has all units.
fn one_has_all<R: Abort + AllocGlobal>(rt: &R, report: &str) {
    let counts = counts_of(report, "given 131071", "refused");
    assert!(rt; counts == (34, 1, 15));
    assert!(rt; report.starts_with("heap 16 16 64 lanes 16\nlane 0\n"));
    assert!(rt; report.ends_with("\nlive 1 words 131071\n"));
}

#[test]
fn all_units_go_to_one_of_sixteen_lanes(rt: HostRuntime) -> Result<(), Fail> {
    let trace = greedy_lanes(rt.alloc())?;
    let (told, sink) = run_on(&rt, rt.alloc(), "replay", trace.as_str())?;
    assert!(rt; told == (REPORTED, Left::Shared));
    let Ok(report) = str::from_utf8(sink.bytes()) else {
        panic!(rt; "a report is text");
    };
    one_has_all(&rt, report);
    Ok(())
}
