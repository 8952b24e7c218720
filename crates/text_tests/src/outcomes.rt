//! What outcomes say: how much is live, and the lines of a report.

use heap_geometry::geometry::Geometry;
use heap_geometry::limits::MAX_TURNS;
use heap_geometry::need::Need;
use lane_outcomes::live::live_count;
use lane_outcomes::outcome::Outcome;
use lane_outcomes::report::report;
use std::alloc::{AllocError, Global};
use std::test::Fail;
use trace_text::trace::{Lanes, Op, Orders, Trace, Version};

/// Lane 0 puts one of two blocks on a shelf, and lane 1 takes and frees it.
fn two_lanes(alloc: Global) -> Result<Trace, AllocError> {
    let first = [
        Op::Alloc {
            r: 0,
            need: 1,
            v: 5,
        },
        Op::Alloc {
            r: 1,
            need: 3,
            v: 7,
        },
        Op::Put { r: 1, shelf: 5 },
    ];
    let second = [Op::Take { r: 0, shelf: 5 }, Op::Free { r: 0 }];
    let lanes = vec![in alloc; first.to_vec(alloc)?, second.to_vec(alloc)?]?;
    Ok(Trace {
        version: Version::One,
        heap: Geometry {
            frames: 4,
            heaps: 1,
            units: 0,
            callers: 2,
            turn_limit: MAX_TURNS,
        },
        named_limit: false,
        lanes: Lanes::new(lanes),
        orders: Orders::new(Vec::new(alloc)),
    })
}

/// What is live of a trace whose lanes came to these outcomes.
fn live_of(alloc: Global, trace: &Trace, lanes: &[&[Outcome]]) -> Result<(u32, u64), AllocError> {
    let mut outcomes = Vec::new(alloc);
    for lane in lanes {
        outcomes.push(lane.to_vec(alloc)?)?;
    }
    Ok(live_count(trace, outcomes.as_slice()))
}

/// What is live of the two lanes.
fn live_of_two(alloc: Global, lanes: &[&[Outcome]]) -> Result<(u32, u64), AllocError> {
    live_of(alloc, &two_lanes(alloc)?, lanes)
}

#[test]
fn a_block_that_was_taken_and_freed_is_not_live(rt: HostRuntime) -> Result<(), Fail> {
    let first = [
        Outcome::Given { words: 1, place: 0 },
        Outcome::Given {
            words: 3,
            place: 2048,
        },
        Outcome::Put,
    ];
    let second = [
        Outcome::Took {
            words: 3,
            place: 2048,
            need: Need::Small(1),
        },
        Outcome::Freed,
    ];
    let (first, second) = (first.as_slice(), second.as_slice());
    assert_eq!(rt; live_of_two(rt.alloc(), &[first, second])?, (1, 1));
    assert_eq!(rt; live_of_two(rt.alloc(), &[first])?, (2, 4));
    Ok(())
}

/// A lane of a text of version 2, which resizes its block to the need that it has, to more words and to fewer.
fn resizing_lane(alloc: Global) -> Result<Trace, AllocError> {
    let lane = [
        Op::Alloc {
            r: 0,
            need: 3,
            v: 10,
        },
        Op::Resize { r: 0, need: 2 },
        Op::Resize { r: 0, need: 7 },
        Op::Resize { r: 0, need: 1 },
    ];
    let lanes = vec![in alloc; lane.to_vec(alloc)?]?;
    Ok(Trace {
        version: Version::Two,
        heap: Geometry {
            frames: 4,
            heaps: 1,
            units: 2,
            callers: 1,
            turn_limit: MAX_TURNS,
        },
        named_limit: false,
        lanes: Lanes::new(lanes),
        orders: Orders::new(Vec::new(alloc)),
    })
}

/// What is live of that lane.
fn live_of_resizing(alloc: Global, lane: &[Outcome]) -> Result<(u32, u64), AllocError> {
    live_of(alloc, &resizing_lane(alloc)?, &[lane])
}

#[test]
fn a_resized_block_is_live_in_place_of_the_old_one(rt: HostRuntime) -> Result<(), Fail> {
    let outcomes = [
        Outcome::Given { words: 3, place: 0 },
        Outcome::Kept { words: 3, place: 0 },
        Outcome::Resized {
            words: 7,
            place: 2048,
        },
        Outcome::Resized {
            words: 1,
            place: 4096,
        },
    ];
    for (last, live) in [(1, 3), (1, 3), (1, 7), (1, 1)].into_iter().enumerate() {
        assert!(rt; last < outcomes.len());
        assert_eq!(rt; live_of_resizing(rt.alloc(), &outcomes[..=last])?, live);
    }
    Ok(())
}

const EACH_OUTCOME: &str = "heap2 4 1 2 lanes 1
lane 0
given 1
refused
spent
freed
filled
sum 24
put
shelf full
took 3
shelf empty
kept 3
resized 7
skipped
live 1 words 3
";

const NAMED_LIMIT: &str = "heap 1 1 0 2 lanes 0
live 0 words 0
";

fn one_lane(alloc: Global) -> Result<Trace, AllocError> {
    let heap = Geometry {
        frames: 4,
        heaps: 1,
        units: 2,
        callers: 1,
        turn_limit: MAX_TURNS,
    };
    Ok(Trace {
        version: Version::Two,
        heap,
        named_limit: false,
        lanes: Lanes::new(vec![in alloc; Vec::new(alloc)]?),
        orders: Orders::new(Vec::new(alloc)),
    })
}

fn no_lane(alloc: Global) -> Trace {
    let heap = Geometry {
        frames: 1,
        heaps: 1,
        units: 0,
        callers: 1,
        turn_limit: 2,
    };
    Trace {
        version: Version::One,
        heap,
        named_limit: true,
        lanes: Lanes::new(Vec::new(alloc)),
        orders: Orders::new(Vec::new(alloc)),
    }
}

fn each_outcome(alloc: Global) -> Result<Vec<Outcome>, AllocError> {
    [
        Outcome::Given { words: 1, place: 7 },
        Outcome::Refused,
        Outcome::Spent,
        Outcome::Freed,
        Outcome::Filled,
        Outcome::Sum(24),
        Outcome::Put,
        Outcome::ShelfFull,
        Outcome::Took {
            words: 3,
            place: 9,
            need: Need::Small(1),
        },
        Outcome::ShelfEmpty,
        Outcome::Kept { words: 3, place: 7 },
        Outcome::Resized {
            words: 7,
            place: 11,
        },
        Outcome::Skipped,
    ]
    .to_vec(alloc)
}

/// The report of a lane with each outcome.
fn report_of_each(alloc: Global) -> Result<Vec<u8>, AllocError> {
    let outcomes = vec![in alloc; each_outcome(alloc)?]?;
    report(alloc, &one_lane(alloc)?, &outcomes, 1, 3)
}

/// The report of no lane.
fn report_of_none(alloc: Global) -> Result<Vec<u8>, AllocError> {
    report(alloc, &no_lane(alloc), &[], 0, 0)
}

#[test]
fn each_line_is_spelled(rt: HostRuntime) -> Result<(), Fail> {
    assert_eq!(rt;
        report_of_each(rt.alloc())?.as_slice(),
        EACH_OUTCOME.as_bytes()
    );
    assert_eq!(rt;
        report_of_none(rt.alloc())?.as_slice(),
        NAMED_LIMIT.as_bytes()
    );
    Ok(())
}
