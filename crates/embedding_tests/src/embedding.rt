//! The programs that embed a heap, run with ample memory.

use crate::expect::expect;
use std::test::Fail;
use worked_programs::embedded::told;
use worked_programs::reuse::run;

#[test]
fn a_program_reads_what_it_wrote_and_leaves_nothing(rt: HostRuntime) -> Result<(), Fail> {
    match told(rt.alloc())? {
        Ok(text) => {
            let lines = "kept 7\nhanded 7\nlive 0\n";
            expect(&rt, text.as_slice() == lines.as_bytes(), 0);
        }
        Err(_) => panic!(rt; "the program stopped"),
    }
    Ok(())
}

#[test]
fn a_freed_block_serves_the_next_round(rt: HostRuntime) -> Result<(), Fail> {
    match run(rt.alloc())? {
        Ok(ran) => {
            expect(&rt, ran.sum == 10, 0);
            expect(&rt, ran.hits == 4, 1);
            expect(&rt, ran.turns == 1, 2);
            expect(&rt, ran.live == 0, 3);
        }
        Err(_) => panic!(rt; "the program stopped"),
    }
    Ok(())
}
