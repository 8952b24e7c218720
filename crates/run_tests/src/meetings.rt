//! Lanes that are on their way at the same time: each waits at its second operation until all have come
//! there, which lanes that run one after another never do.

use crate::keeping::{Lanes, passes_in_turn};
use std::process::Abort;
use std::sync::Wait;
use std::test::Fail;
use std::thread::Threads;

/// How many lanes the report of two names, and what it says of each.
const TWO_LANES: &str = " lanes 2\nlane 0\ngiven 1\nfreed\nlane 1\ngiven 1\nfreed\n";

/// The same of sixteen.
const SIXTEEN_LANES: &str =
    " lanes 16\nlane 0\ngiven 1\nfreed\nlane 1\ngiven 1\nfreed\nlane 2\ngiven 1\nfreed\nlane 3\ngiven 1\nfreed\nlane 4\ngiven 1\nfreed\nlane 5\ngiven 1\nfreed\nlane 6\ngiven 1\nfreed\nlane 7\ngiven 1\nfreed\nlane 8\ngiven 1\nfreed\nlane 9\ngiven 1\nfreed\nlane 10\ngiven 1\nfreed\nlane 11\ngiven 1\nfreed\nlane 12\ngiven 1\nfreed\nlane 13\ngiven 1\nfreed\nlane 14\ngiven 1\nfreed\nlane 15\ngiven 1\nfreed\n";

/// All lanes of a command meet that have so many operations each, and it writes these parts.
fn meets<R: Threads + Wait + Abort + AllocGlobal + Sync>(
    rt: &R,
    line: &str,
    input: &str,
    lanes: usize,
    operations: usize,
    written: &[&str],
) -> Result<(), Fail> {
    let all = Lanes {
        lanes,
        operations,
        meet: true,
    };
    let sink = passes_in_turn(rt, line, input, all)?;
    let text = written.join(rt.alloc(), "")?;
    assert!(rt; sink.bytes() == text.as_bytes(), "{line}: {lanes} lanes");
    Ok(())
}

/// Lanes meet that each allocate a word and free it, where the report says this of them, and has these lines behind it.
fn short_lanes_meet<R: Threads + Wait + Abort + AllocGlobal + Sync>(
    rt: &R,
    line: &str,
    heap: &str,
    lanes: usize,
    reported: &str,
    more: &str,
) -> Result<(), Fail> {
    let text = "lane\na 0 1 1\nf 0\n".repeat(rt.alloc(), lanes)?;
    let trace = ["heap ", heap, "\n", text.as_str(), "end\n"].join(rt.alloc(), "")?;
    let written = ["heap ", heap, reported, "live 0 words 0\n", more];
    meets(rt, line, trace.as_str(), lanes, 2, &written)
}

#[test]
fn all_lanes_are_on_their_way_at_once(rt: HostRuntime) -> Result<(), Fail> {
    short_lanes_meet(&rt, "replay", "4 2 0", 2, TWO_LANES, "")?;
    short_lanes_meet(&rt, "replay", "64 1 0", 16, SIXTEEN_LANES, "")?;
    short_lanes_meet(&rt, "cache 1", "4 2 0", 2, TWO_LANES, "hits 0\n")
}

#[test]
fn sixteen_lanes_meet_through_caches(rt: HostRuntime) -> Result<(), Fail> {
    short_lanes_meet(&rt, "cache 1", "64 1 0", 16, SIXTEEN_LANES, "hits 0\n")
}

/// Where a sender sends nothing, it meets nobody.
#[test]
fn senders_of_a_pipeline_are_on_their_way_at_once(rt: HostRuntime) -> Result<(), Fail> {
    let two =
        "pipe 2 2 5\nsender 0 sent 2 fold 148901409\nsender 1 sent 2 fold 29732357409\nlive 0 words 0\n";
    meets(&rt, "pipe 2 2 5", "", 2, 2, &[two])?;
    let none = "pipe 1 0 7\nsender 0 sent 0 fold 0\nlive 0 words 0\n";
    meets(&rt, "pipe 1 0 7", "", 1, 0, &[none])
}
