//! Whole calls come to what their steps come to: the answers, the places, what each caller counts, and at the
//! end each word of the heap. The numbers come from a model of the machine that was written apart from it,
//! which made the same calls step by step.

use heap_geometry::geometry::Geometry;
use heap_geometry::limits::MAX_TURNS;
use heap_scripts::compare::compare;
use heap_scripts::sums::Sums;
use std::alloc::{AllocError, Global};
use std::test::Fail;

/// How many calls a script makes, but for those that are under way then.
const CALLS: u64 = 300;

/// A script, its heap, and what its calls come to.
struct Row {
    script: u64,
    geometry: Geometry,
    sums: Sums,
}

// Together the scripts make steps of all kinds, and lose an exchange at fourteen of them.
const ROWS: [Row; 7] = [
    // Wide needs of one caller, whose superblocks become full, partial and empty, and are cleared.
    Row {
        script: 141,
        geometry: Geometry {
            frames: 6,
            heaps: 1,
            units: 8,
            callers: 1,
            turn_limit: MAX_TURNS,
        },
        sums: Sums {
            calls: 300,
            given: 91,
            refused: 21,
            spent: 0,
            freed: 84,
            busy: 20,
            steps: 1_916,
            won: 452,
            lost: 0,
            cleared: 1,
            words: 13_992_075_551_021_425_874,
            differed: 0,
        },
    },
    // Wide needs of four callers in two frames.
    Row {
        script: 3_206,
        geometry: Geometry {
            frames: 2,
            heaps: 2,
            units: 8,
            callers: 4,
            turn_limit: MAX_TURNS,
        },
        sums: Sums {
            calls: 301,
            given: 41,
            refused: 125,
            spent: 0,
            freed: 38,
            busy: 47,
            steps: 3_077,
            won: 439,
            lost: 4,
            cleared: 0,
            words: 15_266_202_587_924_006_747,
            differed: 0,
        },
    },
    // The same in six frames, with two tries a call.
    Row {
        script: 1_884,
        geometry: Geometry {
            frames: 6,
            heaps: 1,
            units: 2,
            callers: 4,
            turn_limit: MAX_TURNS,
        },
        sums: Sums {
            calls: 300,
            given: 107,
            refused: 6,
            spent: 0,
            freed: 102,
            busy: 25,
            steps: 2_012,
            won: 511,
            lost: 5,
            cleared: 1,
            words: 14_466_208_615_253_329_233,
            differed: 0,
        },
    },
    // One word again and again.
    Row {
        script: 5_467,
        geometry: Geometry {
            frames: 6,
            heaps: 1,
            units: 2,
            callers: 4,
            turn_limit: MAX_TURNS,
        },
        sums: Sums {
            calls: 300,
            given: 114,
            refused: 0,
            spent: 0,
            freed: 81,
            busy: 30,
            steps: 7_428,
            won: 333,
            lost: 11,
            cleared: 0,
            words: 13_421_527_874_173_373_470,
            differed: 0,
        },
    },
    // Needs of all classes, for which two frames are too few.
    Row {
        script: 657,
        geometry: Geometry {
            frames: 2,
            heaps: 3,
            units: 2,
            callers: 3,
            turn_limit: MAX_TURNS,
        },
        sums: Sums {
            calls: 301,
            given: 11,
            refused: 210,
            spent: 0,
            freed: 11,
            busy: 39,
            steps: 4_027,
            won: 450,
            lost: 7,
            cleared: 0,
            words: 7_300_009_835_136_038_497,
            differed: 0,
        },
    },
    // Needs of all classes, until callers have no turn left.
    Row {
        script: 5_801,
        geometry: Geometry {
            frames: 5,
            heaps: 3,
            units: 8,
            callers: 3,
            turn_limit: 40,
        },
        sums: Sums {
            calls: 300,
            given: 26,
            refused: 94,
            spent: 63,
            freed: 25,
            busy: 30,
            steps: 4_499,
            won: 276,
            lost: 5,
            cleared: 0,
            words: 17_290_573_970_000_827_315,
            differed: 0,
        },
    },
    // Needs of units, which no block has so many of, or which are taken.
    Row {
        script: 8_371,
        geometry: Geometry {
            frames: 3,
            heaps: 1,
            units: 2,
            callers: 4,
            turn_limit: MAX_TURNS,
        },
        sums: Sums {
            calls: 301,
            given: 35,
            refused: 163,
            spent: 0,
            freed: 29,
            busy: 19,
            steps: 1_267,
            won: 176,
            lost: 2,
            cleared: 1,
            words: 12_386_417_163_649_046_182,
            differed: 0,
        },
    },
];

/// What the calls of a script come to.
fn made(alloc: Global, script: u64, geometry: Geometry) -> Result<Option<Sums>, AllocError> {
    match geometry.check() {
        Ok(geometry) => compare(alloc, geometry, script, CALLS),
        Err(_) => Ok(None),
    }
}

#[test]
fn whole_calls_come_to_what_their_steps_come_to(rt: HostRuntime) -> Result<(), Fail> {
    for row in &ROWS {
        let sums = made(rt.alloc(), row.script, row.geometry)?;
        assert_eq!(rt; sums, Some(row.sums), "script {}", row.script);
    }
    Ok(())
}
