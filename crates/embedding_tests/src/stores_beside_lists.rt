//! Random scripts of calls on a store beside plain lists, while another caller of its heap goes on.

use crate::expect::expect;
use heap_geometry::geometry::Geometry;
use heap_geometry::limits::MAX_TURNS;
use heap_scripts::stores::sums::Sums;
use heap_scripts::stores::together::{run_by_turns, run_on_threads};
use std::alloc::{AllocError, Global};
use std::test::Fail;
use std::thread::Threads;

/// How many calls a script has.
const CALLS: u64 = 2_000;

/// How many scripts are run for each heap, by turns.
const SCRIPTS: u64 = 4;

/// How often a script is run on threads at most, until calls of each kind were interrupted.
const RUNS: u64 = 400;

const ONE_HEAP: Geometry = Geometry {
    frames: 64,
    heaps: 1,
    units: 0,
    callers: 2,
    turn_limit: MAX_TURNS,
};

const HEAPS: [Geometry; 3] = [
    ONE_HEAP,
    // So few frames that blocks are refused.
    Geometry {
        frames: 3,
        heaps: 2,
        ..ONE_HEAP
    },
    // So few turns that there is none left.
    Geometry {
        turn_limit: 300,
        ..ONE_HEAP
    },
];

/// What the scripts come to that are run by turns.
fn made_by_turns(alloc: Global) -> Result<Option<Sums>, AllocError> {
    let mut all = Sums::new();
    for geometry in &HEAPS {
        let Ok(geometry) = geometry.check() else {
            return Ok(None);
        };
        for seed in 0..SCRIPTS {
            let Some(sums) = run_by_turns(alloc, geometry, seed, CALLS)? else {
                return Ok(None);
            };
            all = all.with(sums);
        }
    }
    Ok(Some(all))
}

#[test]
fn stores_hold_what_plain_lists_do(rt: HostRuntime) -> Result<(), Fail> {
    let Some(sums) = made_by_turns(rt.alloc())? else {
        panic!(rt; "there is no second caller");
    };
    expect(&rt, sums.differed == 0, sums.differed);
    expect(&rt, sums.stored > 0 && sums.taken > 0 && sums.read > 0, 1);
    expect(&rt, sums.refused > 0 && sums.spent > 0 && sums.lost > 0, 2);
    Ok(())
}

/// Whether a call of each kind was interrupted.
fn is_interrupted(sums: Sums) -> bool {
    sums.busy_pairs > 0 && sums.busy_records > 0 && sums.busy_frees > 0
}

/// What scripts come to that are run on threads until each kind of call was interrupted.
fn made_on_threads<R: Threads + Sync>(rt: &R, alloc: Global) -> Result<Option<Sums>, AllocError> {
    let Ok(geometry) = ONE_HEAP.check() else {
        return Ok(None);
    };
    let mut all = Sums::new();
    for seed in 0..RUNS {
        if is_interrupted(all) {
            break;
        }
        let Some(sums) = run_on_threads(rt, alloc, geometry, seed, CALLS)? else {
            return Ok(None);
        };
        all = all.with(sums);
    }
    Ok(Some(all))
}

#[test]
fn calls_that_lose_an_exchange_are_resumed(rt: HostRuntime) -> Result<(), Fail> {
    let Some(sums) = made_on_threads(&rt, rt.alloc())? else {
        panic!(rt; "there is no second caller");
    };
    expect(&rt, sums.differed == 0, sums.differed);
    expect(&rt, is_interrupted(sums), 1);
    expect(&rt, sums.resumed > 0, 2);
    Ok(())
}
