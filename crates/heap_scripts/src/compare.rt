//! Two heaps of the same numbers beside each other on one thread: the calls of one script are made on the
//! one as wholes and on the other step by step.

ghost use Rattle.heap_geometry.specs.Geometry.{IsChecked};

use crate::request::Request;
use crate::script::Script;
use crate::side::{Side, Way};
use crate::stepped::Pace;
use crate::sums::{Sums, add, differing, sum};
use heap_geometry::geometry::Geometry;
use live_heap::closed::Closed;
use std::alloc::{AllocError, Global};
use word_table::layout::Layout;

/// More tries and steps than any call takes.
const ENOUGH: Pace = Pace {
    tries: u32::MAX,
    steps: u32::MAX,
};

/// Two heaps of the same numbers, and what was called on them.
#[derive(Drop)]
struct Twins {
    whole: Side,
    stepped: Side,
    sums: Sums,
}

/// Makes so many calls of the script of this number, and ends those that are under way then. A quarter of
/// the allocations and frees are stopped in the middle on both heaps, so that others come upon them there.
/// None where a caller is in a call still.
pub fn compare(
    alloc: Global,
    geometry: Geometry,
    seed: u64,
    calls: u64,
) -> Result<Option<Sums>, AllocError>
    requires { IsChecked geometry }
{
    let mut script = Script::new(seed);
    let mut twins = Twins::open(alloc, geometry)?;
    for _ in 0..calls {
        let who = script.caller(geometry.callers) as usize;
        twins.call(who, &mut script)?;
    }
    for who in 0..geometry.callers as usize {
        twins.make(who, Request::Resume, Way::Whole(ENOUGH.tries), ENOUGH)?;
    }
    twins.close(alloc)
}

impl Twins {
    ghost use Rattle.std.specs.Prelude.{IfOk};
    ghost use Rattle.heap_scripts.specs.Sides.{AreSides};

    /// New heaps, on which nothing is called yet.
    fn open(alloc: Global, geometry: Geometry) -> Result<Twins, AllocError>
        requires { IsChecked geometry }
        ensures { IfOk result (λ twins. AreSides twins) }
    {
        Ok(Twins {
            whole: Side::open(alloc, geometry)?,
            stepped: Side::open(alloc, geometry)?,
            sums: Sums::new(),
        })
    }

    /// The next call of the script, which this caller makes.
    fn call(&mut self, who: usize, script: &mut Script) -> Result<(), AllocError>
        requires { AreSides self.old }
        ensures { AreSides self.new }
    {
        let Some(request) = self.whole.ask(who, script) else {
            return Ok(());
        };
        let tries = script.tries();
        match script.stop(request) {
            Some(steps) => {
                let pace = Pace { tries, steps };
                self.make(who, request, Way::Steps(pace), pace)
            }
            None => {
                let pace = Pace { tries, ..ENOUGH };
                self.make(who, request, Way::Whole(tries), pace)
            }
        }
    }

    /// A call on the one heap in this way, and on the other step by step.
    fn make(&mut self, who: usize, request: Request, way: Way, pace: Pace) -> Result<(), AllocError>
        requires { AreSides self.old }
        ensures { AreSides self.new }
    {
        let told = self.whole.make(who, request, way)?;
        let other = self.stepped.make(who, request, Way::Steps(pace))?;
        if told != other || self.whole.counts(who) != self.stepped.counts(who) {
            add(&mut self.sums.differed, 1);
        }
        if let Some(told) = told {
            self.sums.add(told);
        }
        Ok(())
    }

    /// Closes both heaps, compares their words, and sums up.
    fn close(self, alloc: Global) -> Result<Option<Sums>, AllocError>
        requires { AreSides self }
    {
        let Twins {
            whole,
            stepped,
            mut sums,
        } = self;
        sums.steps = stepped.steps();
        sums.cleared = whole.cleared();
        let (Some(whole), Some(stepped)) = (whole.close(alloc)?, stepped.close(alloc)?) else {
            return Ok(None);
        };
        let words = words_of(alloc, &whole)?;
        let others = words_of(alloc, &stepped)?;
        let differing = differing(words.as_slice(), others.as_slice());
        add(&mut sums.differed, differing);
        sums.words = sum(words.as_slice());
        sums.won = whole.won();
        sums.lost = whole.lost();
        Ok(Some(sums))
    }
}

/// The words of a closed heap in their order.
fn words_of(alloc: Global, closed: &Closed) -> Result<Vec<u64>, AllocError> {
    let layout = Layout::new(closed.geometry());
    let mut words = Vec::with_capacity(alloc, layout.words() as usize)?;
    for index in 0..layout.words() {
        words.push(closed.word(layout.name(index)))?;
    }
    Ok(words)
}
