//! Traces with frames and turns to spare have one report each, on threads, through caches and in any order
//! of steps.

use command_line::status::REPORTED;
use command_tests::running::{Left, run_on, writes};
use std::alloc::{AllocError, Global};
use std::process::Abort;
use std::sync::Wait;
use std::test::Fail;
use std::thread::Threads;

/// How many lanes the trace has.
const LANES: u32 = 8;

/// Eight lanes, each of which holds at most two blocks: 16 frames, 22 for the active superblocks of two
/// processor heaps, and 8 for the callers are just enough, and so are 24 turns for 24 allocations.
fn roomy_lanes(alloc: Global) -> Result<String, AllocError> {
    let mut trace = String::new(alloc);
    trace.push_str("heap 46 2 0 24\n")?;
    for lane in 0..LANES {
        let next = lane + 1;
        write!(
            trace,
            "lane\na 0 3 {lane}\nc 0\na 1 100 {lane}\nc 1\nf 0\na 0 7 {lane}\nw 1 {next}\nc 1\nf 1\n"
        )?;
    }
    Ok(trace)
}

/// Their report: a block of 127 words that is filled from `n` on has the sum `127 * n + 8001`.
fn roomy_report(alloc: Global) -> Result<String, AllocError> {
    let mut report = String::new(alloc);
    report.push_str("heap 46 2 0 24 lanes 8\n")?;
    for lane in 0..LANES {
        let small = 3 * lane + 3;
        let first = 127 * lane + 8001;
        let second = first + 127;
        write!(
            report,
            "lane {lane}\ngiven 3\nsum {small}\ngiven 127\nsum {first}\nfreed\ngiven 7\nfilled\nsum {second}\nfreed\n"
        )?;
    }
    report.push_str("live 8 words 56\n")?;
    Ok(report)
}

/// Eight lanes, each of which holds one block, and two while it resizes: just enough frames again, and
/// 32 turns for 8 allocations and 24 resizes.
fn resizing_lanes(alloc: Global) -> Result<String, AllocError> {
    let mut trace = String::new(alloc);
    trace.push_str("heap2 46 2 0 32\n")?;
    for lane in 0..LANES {
        write!(
            trace,
            "lane\na 0 3 {lane}\nr 0 100\nc 0\nr 0 127\nr 0 1\nc 0\nf 0\n"
        )?;
    }
    Ok(trace)
}

/// Their report: 127 words have the blocks that 100 have.
fn resizing_report(alloc: Global) -> Result<String, AllocError> {
    let mut report = String::new(alloc);
    report.push_str("heap2 46 2 0 32 lanes 8\n")?;
    for lane in 0..LANES {
        let sum = 3 * lane + 3;
        write!(
            report,
            "lane {lane}\ngiven 3\nresized 127\nsum {sum}\nkept 127\nresized 1\nsum {lane}\nfreed\n"
        )?;
    }
    report.push_str("live 0 words 0\n")?;
    Ok(report)
}

/// Eight lanes whose caches keep a block of a class: of held and kept ones each has at most two, and
/// counts three while a resize moves one. So 54 frames are just enough, and 32 turns.
fn cached_lanes(alloc: Global) -> Result<String, AllocError> {
    let mut trace = String::new(alloc);
    trace.push_str("heap2 54 2 0 32\n")?;
    for lane in 0..LANES {
        let next = lane + 1;
        write!(
            trace,
            "lane\na 0 3 {lane}\nf 0\na 0 2 {next}\nc 0\nr 0 100\nr 0 3\nc 0\nf 0\n"
        )?;
    }
    Ok(trace)
}

/// Their report: in each lane the block of three words is served twice.
fn cached_report(alloc: Global) -> Result<String, AllocError> {
    let mut report = String::new(alloc);
    report.push_str("heap2 54 2 0 32 lanes 8\n")?;
    for lane in 0..LANES {
        let sum = 3 * lane + 6;
        write!(
            report,
            "lane {lane}\ngiven 3\nfreed\ngiven 3\nsum {sum}\nresized 127\nresized 3\nsum {sum}\nfreed\n"
        )?;
    }
    report.push_str("live 0 words 0\nhits 16\n")?;
    Ok(report)
}

/// Ten runs on threads of these lanes, by these words, all give this report.
fn threads_give<R: Threads + Wait + AllocGlobal + Sync>(
    rt: &R,
    words: &str,
    lanes: &str,
    report: &str,
) -> Result<(), Fail> {
    let trace = [lanes, "end\n"].join(rt.alloc(), "")?;
    for _ in 0..10u32 {
        let ends = (REPORTED, Left::Shared);
        writes(rt, words, trace.as_str(), ends, report)?;
    }
    Ok(())
}

/// The next number of a linear congruential generator, the one of MINSTD.
fn next_number(number: u64) -> u64 {
    number.saturating_mul(48_271) % 2_147_483_647
}

/// The lanes with a hundred order lines that a number chooses.
fn shuffled(alloc: Global, lanes: &str, start: u64) -> Result<String, AllocError> {
    let mut trace = String::new(alloc);
    trace.push_str(lanes)?;
    let mut number = start;
    for _ in 0..100u32 {
        number = next_number(number);
        let lane = number % u64::from(LANES);
        let steps = number / 8 % 200 + 1;
        write!(trace, "order {lane} {steps}\n")?;
    }
    trace.push_str("end\n")?;
    Ok(trace)
}

/// The lanes' run in the order that a number chooses gives this report, and tells behind it of the steps.
fn is_scheduled<R: Threads + Wait + Abort + AllocGlobal + Sync>(
    rt: &R,
    lanes: &str,
    start: u64,
    report: &str,
) -> Result<(), Fail> {
    let trace = shuffled(rt.alloc(), lanes, start)?;
    let (told, sink) = run_on(rt, rt.alloc(), "schedule", trace.as_str())?;
    assert!(rt; told == (REPORTED, Left::Machine), "{start}");
    assert!(rt; sink.bytes().starts_with(report.as_bytes()), "{start}");
    Ok(())
}

/// Ten runs of these lanes, each in an order of its own, all give this report.
fn schedules_give<R: Threads + Wait + Abort + AllocGlobal + Sync>(
    rt: &R,
    lanes: &str,
    report: &str,
) -> Result<(), Fail> {
    for start in 1..=10u64 {
        is_scheduled(rt, lanes, start, report)?;
    }
    Ok(())
}

#[test]
fn threads_and_schedules_give_one_report(rt: HostRuntime) -> Result<(), Fail> {
    let lanes = roomy_lanes(rt.alloc())?;
    let report = roomy_report(rt.alloc())?;
    threads_give(&rt, "replay", lanes.as_str(), report.as_str())?;
    schedules_give(&rt, lanes.as_str(), report.as_str())
}

#[test]
fn threads_and_schedules_give_one_report_of_resizes(rt: HostRuntime) -> Result<(), Fail> {
    let lanes = resizing_lanes(rt.alloc())?;
    let report = resizing_report(rt.alloc())?;
    threads_give(&rt, "replay", lanes.as_str(), report.as_str())?;
    schedules_give(&rt, lanes.as_str(), report.as_str())
}

#[test]
fn threads_through_caches_give_one_report_and_number_of_hits(rt: HostRuntime) -> Result<(), Fail> {
    let lanes = cached_lanes(rt.alloc())?;
    let report = cached_report(rt.alloc())?;
    threads_give(&rt, "cache 1", lanes.as_str(), report.as_str())
}
