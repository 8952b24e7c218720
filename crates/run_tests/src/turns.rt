//! In which order the operations of lanes on threads pass a gate, also of lanes through caches and of the senders of
//! a pipeline: each once, and behind the one before it in its lane.

use crate::keeping::{Lanes, passes_in_turn};
use std::alloc::{AllocError, Global};
use std::process::Abort;
use std::sync::Wait;
use std::test::Fail;
use std::thread::Threads;

/// Sixteen lanes of seven operations, among them one that is skipped.
fn sixteen_lanes(alloc: Global) -> Result<String, AllocError> {
    let mut trace = String::new(alloc);
    trace.push_str("heap 64 2 0\n")?;
    for lane in 0..16u32 {
        write!(
            trace,
            "lane\na 0 1 {lane}\nf 1\nw 0 2\nc 0\np 0 {lane}\nt 1 {lane}\nf 1\n"
        )?;
    }
    trace.push_str("end\n")?;
    Ok(trace)
}

/// The operations of a command's lanes pass the gate so.
fn is_in_turn<R: Threads + Wait + Abort + AllocGlobal + Sync>(
    rt: &R,
    line: &str,
    input: &str,
    lanes: usize,
    operations: usize,
) -> Result<(), Fail> {
    let all = Lanes {
        lanes,
        operations,
        meet: false,
    };
    let _written = passes_in_turn(rt, line, input, all)?;
    Ok(())
}

/// A workload of 24 rounds has three for each of its eight lanes: three blocks are allocated, and each
/// is summed and freed.
#[test]
fn operations_on_threads_pass_the_gate_once_and_in_turn(rt: HostRuntime) -> Result<(), Fail> {
    let trace = sixteen_lanes(rt.alloc())?;
    is_in_turn(&rt, "replay", trace.as_str(), 16, 7)?;
    is_in_turn(&rt, "census", trace.as_str(), 16, 7)?;
    is_in_turn(&rt, "make threadtest 24 5", "", 8, 9)
}

#[test]
fn operations_through_caches_pass_the_gate_once_and_in_turn(rt: HostRuntime) -> Result<(), Fail> {
    let trace = sixteen_lanes(rt.alloc())?;
    is_in_turn(&rt, "cache 2", trace.as_str(), 16, 7)
}

/// Twenty messages are two whole rounds and a part of one.
#[test]
fn messages_pass_the_gate_once_and_in_turn(rt: HostRuntime) -> Result<(), Fail> {
    is_in_turn(&rt, "pipe 4 20 5", "", 4, 20)
}
