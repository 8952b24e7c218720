//! Reports of traces that give the order of their steps.

use crate::running::{Left, all_are_written};
use crate::texts::{push_allocations, push_frees};
use command_line::status::REPORTED;
use std::alloc::{AllocError, Global};
use std::sync::Wait;
use std::test::Fail;
use std::thread::Threads;

/// Both lanes want what one of them has.
const RACES: &[(&str, &str)] = &[
    // The last credit goes to one lane: both lanes read the active word with its last credit. Lane 1 takes it, and lane 0 goes on to a new
    // superblock.
    (
        "heap 2 1 0\nlane\na 0 2047 1\na 1 2047 1\nlane\na 0 2047 1\norder 0 2067\norder 1 2\nend\n",
        "heap 2 1 0 lanes 2\nlane 0\ngiven 2047\ngiven 2047\nlane 1\ngiven 2047\nlive 3 words 6141\nsteps 6188 lost 1 cleared 0\n",
    ),
    // A slow free keeps its frame: lane 0 stops directly after it made its superblock empty. Lane 1 takes the descriptor out of its
    // slot, and is refused, since lane 0 has the frame still.
    (
        "heap 1 1 0\nlane\na 0 2047 1\na 1 2047 1\nf 0\nf 1\nlane\na 0 2047 1\na 0 2047 1\na 0 2047 1\norder 0 4132\norder 1 1000\nend\n",
        "heap 1 1 0 lanes 2\nlane 0\ngiven 2047\ngiven 2047\nfreed\nfreed\nlane 1\nrefused\nrefused\nrefused\nlive 0 words 0\nsteps 4189 lost 0 cleared 1\n",
    ),
    // An old block is held until it is copied: lane 0 stops while it copies a block of two units to one of three. Lane 1 is refused two units, and has
    // the two of the old block behind the copy.
    (
        "heap2 1 1 5\nlane\na 0 2048 1\nr 0 4096\nlane\na 0 2048 2\na 0 2048 3\norder 0 10000\norder 1 2\nend\n",
        "heap2 1 1 5 lanes 2\nlane 0\ngiven 4095\nresized 6143\nlane 1\nrefused\ngiven 4095\nlive 2 words 10238\nsteps 18441 lost 0 cleared 0\n",
    ),
    // One of two installs is lost: lane 0 has a superblock ready when lane 1 installs its own: lane 0 gives its frame back, and takes
    // the other block of lane 1's.
    (
        "heap 2 1 0\nlane\na 0 2047 1\nlane\na 0 2047 1\norder 0 17\norder 1 2066\nend\n",
        "heap 2 1 0 lanes 2\nlane 0\ngiven 2047\nlane 1\ngiven 2047\nlive 2 words 4094\nsteps 4141 lost 1 cleared 0\n",
    ),
];

/// What lanes find on a shelf, and a trace of no lane.
const ORDERS: &[(&str, &str)] = &[
    // Lane 1 finds the first of two blocks that lane 0 puts there.
    (
        "heap 4 1 0\nlane\na 0 3 10\np 0 5\na 0 3 20\np 0 5\nlane\nt 0 5\nc 0\nt 1 5\nf 0\nend\n",
        "heap 4 1 0 lanes 2\nlane 0\ngiven 3\nput\ngiven 3\nshelf full\nlane 1\ntook 3\nsum 33\nshelf empty\nfreed\nlive 1 words 3\nsteps 1067 lost 0 cleared 0\n",
    ),
    // The order decides: here lane 1 looks at the shelf before lane 0 has put a block there.
    (
        "heap 4 2 64 1000000\nlane\na 0 3 10\nw 0 20\np 0 5\nlane\nt 1 5\nc 1\nf 1\norder 1 100\norder 0 100\nend\n",
        "heap 4 2 64 1000000 lanes 2\nlane 0\ngiven 3\nfilled\nput\nlane 1\nshelf empty\nskipped\nskipped\nlive 1 words 3\nsteps 1050 lost 0 cleared 0\n",
    ),
    // No lane makes no step.
    (
        "heap 4 1 2\nend\n",
        "heap 4 1 2 lanes 0\nlive 0 words 0\nsteps 0 lost 0 cleared 0\n",
    ),
];

/// `schedule` writes these reports of these traces.
fn all_are_scheduled<R: Threads + Wait + AllocGlobal + Sync>(
    rt: &R,
    cases: &[(&str, &str)],
) -> Result<(), Fail> {
    all_are_written(rt, "schedule", (REPORTED, Left::Machine), cases)
}

/// Lane 0 allocates two blocks, and stops where it has read the anchor and the link of the first block
/// it would pop. Lane 1 meanwhile pops and pushes 64 blocks, that one last.
fn reused_block(alloc: Global) -> Result<String, AllocError> {
    let mut text = String::new(alloc);
    text.push_str("heap 1 1 0\nlane\na 0 1 5\na 1 1 6\nlane\n")?;
    push_allocations(&mut text, 64, 1, 0)?;
    push_frees(&mut text, 1, 64)?;
    text.push_str("f 0\norder 0 2071\norder 1 769\nend\n")?;
    Ok(text)
}

/// Its report: the first exchange of lane 0 is lost.
fn reused_block_report(alloc: Global) -> Result<String, AllocError> {
    let given = "given 1\n".repeat(alloc, 64)?;
    let freed = "freed\n".repeat(alloc, 64)?;
    format!(in alloc;
        "heap 1 1 0 lanes 2\nlane 0\ngiven 1\ngiven 1\nlane 1\n{given}{freed}live 2 words 2\nsteps 2846 lost 1 cleared 0\n"
    )
}

#[test]
fn tag_tells_a_reused_block_apart(rt: HostRuntime) -> Result<(), Fail> {
    let input = reused_block(rt.alloc())?;
    let report = reused_block_report(rt.alloc())?;
    all_are_scheduled(&rt, &[(input.as_str(), report.as_str())])
}

#[test]
fn one_of_two_lanes_has_what_both_want(rt: HostRuntime) -> Result<(), Fail> {
    all_are_scheduled(&rt, RACES)
}

#[test]
fn order_decides_what_a_lane_finds(rt: HostRuntime) -> Result<(), Fail> {
    all_are_scheduled(&rt, ORDERS)
}
