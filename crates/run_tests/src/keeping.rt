//! A gate that keeps which operations of lanes on threads have passed it, and in which order; and at which lanes
//! meet, where that is asked for.

use command_line::status::REPORTED;
use command_tests::running::{Left, Told, run_through, steady_source, wide_sink};
use edge_io::gate::Gate;
use edge_io::memory::MemorySink;
use std::alloc::{AllocError, Global};
use std::process::Abort;
use std::sync::{OnceLock, Wait};
use std::test::Fail;
use std::thread::Threads;

/// How often a lane looks for the others before it goes on without them.
const LOOKS: u32 = 100_000_000;

/// The lanes of a run, and what they do at the gate.
#[derive(Clone, Copy)]
pub(crate) struct Lanes {
    pub(crate) lanes: usize,
    /// How many operations each of them has.
    pub(crate) operations: usize,
    /// Whether they meet: each waits at its second operation until all have come there, which lanes that run one
    /// after another never do.
    pub(crate) meet: bool,
}

/// A gate that threads share.
#[derive(Drop)]
struct Keeping {
    all: Lanes,
    /// Lane by lane, whether each of its operations has passed.
    passed: Vec<OnceLock<()>>,
    /// Whether one has passed a second time, or before the one before it, or is none of the lane's.
    wrong: OnceLock<()>,
    /// Whether a lane has gone on without the others.
    missed: OnceLock<()>,
}

/// So many operations, none of which has passed.
fn fresh(alloc: Global, operations: usize) -> Result<Vec<OnceLock<()>>, AllocError> {
    let mut fresh = Vec::new(alloc);
    for _ in 0..operations {
        fresh.push(OnceLock::new())?;
    }
    Ok(fresh)
}

impl Keeping {
    /// A gate for these lanes.
    fn of(alloc: Global, all: Lanes) -> Result<Keeping, AllocError> {
        Ok(Keeping {
            all,
            passed: fresh(alloc, all.lanes.saturating_mul(all.operations))?,
            wrong: OnceLock::new(),
            missed: OnceLock::new(),
        })
    }

    /// Where it is kept that an operation has passed.
    fn place(&self, lane: usize, op: usize) -> Option<&OnceLock<()>> {
        if op < self.all.operations {
            let first = lane.saturating_mul(self.all.operations);
            self.passed.get(first.saturating_add(op))
        } else {
            None
        }
    }

    /// Whether an operation has passed.
    fn has_passed(&self, lane: usize, op: usize) -> bool {
        match self.place(lane, op) {
            Some(place) => place.get().is_some(),
            None => false,
        }
    }

    /// Keeps that an operation passes, and answers whether it is for the first time.
    fn keep(&self, lane: usize, op: usize) -> bool {
        match self.place(lane, op) {
            Some(place) => place.try_set(()).is_ok(),
            None => false,
        }
    }

    /// Whether each operation of each lane has passed.
    fn is_full(&self) -> bool {
        for place in &self.passed {
            if place.get().is_none() {
                return false;
            }
        }
        true
    }

    /// Whether all lanes have come to their second operation.
    fn all_are_here(&self) -> bool {
        for lane in 0..self.all.lanes {
            if !self.has_passed(lane, 1) {
                return false;
            }
        }
        true
    }

    /// Looks for the others, unless one has missed them already, and answers whether they came.
    fn waits(&self) -> bool {
        if self.missed.get().is_some() {
            return false;
        }
        for _ in 0..LOOKS {
            if self.all_are_here() {
                return true;
            }
        }
        false
    }
}

impl Gate for Keeping {
    ghost use Rattle.std.specs.Prelude.{⊤};

    ghost passed = { λ _ _ _. ⊤ };

    fn pass(&self, lane: u32, op: u32) {
        let (lane, op) = (lane as usize, op as usize);
        let is_next = op == 0 || self.has_passed(lane, op - 1);
        let is_first = self.keep(lane, op);
        if !is_next || !is_first {
            let _ = self.wrong.try_set(());
        }
        if self.all.meet && op == 1 && !self.waits() {
            let _ = self.missed.try_set(());
        }
    }
}

/// How a command ends whose operations pass this gate, and what it writes.
fn run_at<R: Threads + Wait + Sync>(
    rt: &R,
    alloc: Global,
    line: &str,
    input: &str,
    gate: &Keeping,
) -> Result<(Told, MemorySink), AllocError> {
    let mut sink = wide_sink(alloc)?;
    let mut source = steady_source(alloc, input.as_bytes())?;
    let told = run_through(rt, alloc, line, &mut source, &mut sink, gate)?;
    Ok((told, sink))
}

/// Each operation of these lanes passes once and in its turn, and they meet, where that is asked for. The answer is
/// what the command writes.
pub(crate) fn passes_in_turn<R: Threads + Wait + Abort + AllocGlobal + Sync>(
    rt: &R,
    line: &str,
    input: &str,
    all: Lanes,
) -> Result<MemorySink, Fail> {
    let gate = Keeping::of(rt.alloc(), all)?;
    let (told, sink) = run_at(rt, rt.alloc(), line, input, &gate)?;
    assert!(rt; told == (REPORTED, Left::Shared), "{line}");
    assert!(rt; gate.is_full(), "{line}");
    assert!(rt; gate.wrong.get().is_none(), "{line}");
    assert!(rt; gate.missed.get().is_none(), "{line}");
    Ok(sink)
}
