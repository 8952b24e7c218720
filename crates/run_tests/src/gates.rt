//! In which order operations on a machine pass a gate.

use edge_io::gate::Gate;
use std::alloc::Global;
use std::cell::Cell;
use std::test::Fail;
use text_tests::printed::trace_of;
use trace_commands::told::schedule;

/// A gate that expects these operations of these lanes, in this order.
#[derive(Drop)]
struct Expecting<'a> {
    expected: &'a [(u32, u32)],
    passed: Cell<usize>,
    wrong: Cell<bool>,
}

impl<'a> Gate for Expecting<'a> {
    ghost use Rattle.std.specs.Prelude.{⊤};

    ghost passed = { λ _ _ _. ⊤ };

    fn pass(&self, lane: u32, op: u32) {
        let passed = self.passed.get();
        if self.expected.get(passed) != Some(&(lane, op)) {
            self.wrong.set(true);
        }
        self.passed.set(passed.saturating_add(1));
    }
}

/// Runs two lanes on a machine, whose operations pass this gate.
fn run_at(alloc: Global, gate: &Expecting) -> Result<(), Fail> {
    let trace = trace_of(
        alloc,
        "heap 4 1 2\nlane\na 0 1 5\na 0 1 6\nf 0\nf 0\nlane\nc 7\na 1 1 5\norder 0 1\norder 1 1\nend\n".as_bytes(),
    )?;
    let _told = schedule(alloc, gate, &trace)?;
    Ok(())
}

/// Each operation passes once, also one that is skipped, and lane 0 goes on only where its order run says.
#[test]
fn each_operation_passes_the_gate(rt: HostRuntime) -> Result<(), Fail> {
    let gate = Expecting {
        expected: &[(0, 0), (1, 0), (1, 1), (0, 1), (0, 2), (0, 3)],
        passed: Cell::new(0),
        wrong: Cell::new(false),
    };
    run_at(rt.alloc(), &gate)?;
    assert!(rt; gate.passed.get() == gate.expected.len());
    assert!(rt; !gate.wrong.get());
    Ok(())
}
