//! Steps in a row.

ghost use Rattle.std.specs.Prelude.{◌≡◌};
ghost use Rattle.errand_steps.specs.Begins.{IsIdle};
ghost use Rattle.live_heap.specs.declared.block.Block.{Block};
ghost use Rattle.live_heap.specs.Passes.{IsOf, Owns};
ghost use Rattle.benches.specs.Hands.{IsReady, Rests};

use crate::command::Steps;
use crate::heap::tally::{Tally, count};
use crate::heap::worker::{Work, Worker};
use errand_steps::told::{Ending, Stepped};
use live_heap::block::Block;
use live_heap::heap::Heap;
use live_heap::pass::Pass;
use std::sync::Wait;

/// Makes so many steps, and those that end the last call: allocations of one word, and where `frees` says
/// so the free of each block behind its allocation.
pub fn make_steps<R: Wait>(
    rt: &R,
    heap: &Heap,
    pass: &mut Pass,
    steps: u64,
    frees: bool,
    tally: &mut Tally,
)
    requires { Rests heap.now pass.old }
    ensures { Rests heap.now pass.new }
{
    for _ in rt.forever() {
        if pass.idle() {
            if tally.made >= steps {
                return;
            }
            let _ = heap.begin_alloc(pass, 1);
        }
        make_step(heap, pass, frees, tally);
    }
    unreachable!()
}

/// Makes one step; where it is given a block that is to be freed, the free begins.
fn make_step(heap: &Heap, pass: &mut Pass, frees: bool, tally: &mut Tally)
    requires of { IsOf heap.now pass.old }
    requires home { pass.old.out ≡ 0 }
    ensures of { IsOf heap.now pass.new }
    ensures home { pass.new.out ≡ 0 }
{
    count(&mut tally.made);
    match step_home(heap, pass) {
        Stepped::Done(Ending::Given(block)) => {
            count(&mut tally.given);
            if frees {
                heap.begin_free(pass, block);
            }
        }
        Stepped::Done(Ending::Freed) => count(&mut tally.freed),
        Stepped::Done(Ending::Refused) => count(&mut tally.refused),
        _ => {}
    }
}

/// A step of a pass that has no block's words out, which takes none out.
fn step_home(heap: &Heap, pass: &mut Pass) -> Stepped<Block>
    requires of { IsOf heap.now pass.old }
    requires home { pass.old.out ≡ 0 }
    ensures of { IsOf heap.now pass.new }
    ensures home { pass.new.out ≡ 0 }
    ensures given { (block : Block) → result ≡ Stepped.Done (Ending.Given block) → IsIdle pass.new.errand × Owns pass.new block }
{
    heap.step(pass)
}

impl Work<Pass> for Steps {
    fn work<R: Wait>(&self, rt: &R, heap: &Heap, worker: &mut Worker<Pass>, count: u64) {
        make_steps(
            rt,
            heap,
            &mut worker.front,
            count,
            self.frees,
            &mut worker.tally,
        );
    }
}
