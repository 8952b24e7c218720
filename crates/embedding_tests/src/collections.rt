//! Collections in heaps of fixed size, with ample memory beside them.

use crate::expect::expect;
use heap_census::census::CLASS_COUNT;
use heap_census::counting::census;
use live_heap::closed::Closed;
use std::test::Fail;
use worked_programs::collections::alone::end;
use worked_programs::collections::shared::share;

/// How many small blocks are live, at most 2^64 - 1.
fn live(closed: &Closed) -> u64 {
    let counted = census(closed);
    let mut live = 0u64;
    for class in 0..CLASS_COUNT {
        live = live.saturating_add(counted.per_class[class].live);
    }
    live
}

#[test]
fn collections_live_in_a_heap(rt: HostRuntime) -> Result<(), Fail> {
    match share(&rt, rt.alloc(), 300)? {
        Some(report) => {
            expect(
                &rt,
                report.one.count() == 900 && report.other.count() == 900,
                0,
            );
            expect(&rt, live(&report.closed) == 0, 1);
        }
        None => panic!(rt; "a thread had no memory"),
    }
    Ok(())
}

#[test]
fn memory_that_ended_is_there_again(rt: HostRuntime) -> Result<(), Fail> {
    match end(rt.alloc(), 300)? {
        Some(ended) => {
            expect(&rt, ended.most == 2048 && ended.built.count() == 900, 0);
            expect(&rt, live(&ended.closed) == 0, 1);
        }
        None => panic!(rt; "there was no memory behind the end"),
    }
    Ok(())
}
