//! Runs on a machine, one lane after another, where a lane takes what another one has put on a shelf. On
//! threads it may come before that.

ghost use Rattle.std.specs.Prelude.{◌≤◌, length};
ghost use Rattle.trace_text.specs.declared.limits.TheConstants.{MAX_INPUT};
ghost use Rattle.workloads.specs.declared.making.TheConstants.{MAX_SIZE};

use command_line::command::Workload;
use command_line::summary::summary;
use edge_io::gate::NoGate;
use lane_outcomes::live::live_count;
use lane_outcomes::outcome::Outcome;
use lane_outcomes::report::report;
use std::alloc::{AllocError, Global};
use std::process::Abort;
use std::test::Fail;
use text_tests::printed::trace_of;
use trace_commands::driven::drive;
use trace_text::limits::{MAX_INPUT, MAX_LANES};
use trace_text::trace::Trace;
use workloads::kind::Kind;
use workloads::making::{MAX_SIZE, make_trace};

/// The report of a trace whose lanes came to these outcomes.
fn report_of(
    alloc: Global,
    trace: &Trace,
    outcomes: &[Vec<Outcome>],
) -> Result<Vec<u8>, AllocError> {
    let (live, words) = live_count(trace, outcomes);
    report(alloc, trace, outcomes, live, words)
}

/// The report of the run that a text names.
fn driven_report(alloc: Global, text: &str) -> Result<Vec<u8>, Fail>
    requires { length text.now ≤ MAX_INPUT }
{
    let trace = trace_of(alloc, text.as_bytes())?;
    let run = drive(alloc, &NoGate, &trace)?;
    Ok(report_of(alloc, &trace, run.outcomes.as_slice())?)
}

/// The run that a text names has this report.
fn is_reported<R: Abort + AllocGlobal>(rt: &R, input: &str, text: &str) -> Result<(), Fail> {
    assert!(rt; input.len() <= MAX_INPUT);
    let written = driven_report(rt.alloc(), input)?;
    assert!(rt; written.as_slice() == text.as_bytes(), "{input}");
    Ok(())
}

#[test]
fn blocks_go_from_lane_to_lane(rt: HostRuntime) -> Result<(), Fail> {
    // The second lane finds what the first one put, once.
    is_reported(
        &rt,
        "heap 4 1 0\nlane\na 0 3 10\np 0 5\na 0 3 20\np 0 5\nlane\nt 0 5\nc 0\nt 1 5\nf 0\nend\n",
        "heap 4 1 0 lanes 2\nlane 0\ngiven 3\nput\ngiven 3\nshelf full\nlane 1\ntook 3\nsum 33\nshelf empty\nfreed\nlive 1 words 3\n",
    )?;
    // A turn limit that is named is reported.
    is_reported(
        &rt,
        "heap 4 2 64 1000000\nlane\na 0 3 10\nw 0 20\np 0 5\nlane\nt 1 5\nc 1\nf 1\nend\n",
        "heap 4 2 64 1000000 lanes 2\nlane 0\ngiven 3\nfilled\nput\nlane 1\ntook 3\nsum 63\nfreed\nlive 0 words 0\n",
    )
}

/// The summary of a workload's run on a machine.
fn driven_summary<R: Abort + AllocGlobal>(rt: &R, workload: Workload) -> Result<Vec<u8>, Fail>
    requires { workload.size ≤ MAX_SIZE }
{
    let alloc = rt.alloc();
    let trace = make_trace(alloc, workload.kind, workload.size, workload.start)?;
    let run = drive(alloc, &NoGate, &trace)?;
    let outcomes = run.outcomes.as_slice();
    let (live, words) = live_count(&trace, outcomes);
    assert!(rt; outcomes.len() <= MAX_LANES as usize);
    Ok(summary(alloc, workload, &trace, outcomes, live, words)?)
}

#[test]
fn a_pipeline_hands_blocks_over(rt: HostRuntime) -> Result<(), Fail> {
    let workload = Workload {
        kind: Kind::Pipeline,
        size: 8,
        start: 5,
    };
    let text =
        "make pipeline 8 5\nlanes 8 operations 20\ngiven 4 words 12\nrefused 0 spent 0\nfreed 4\nchecked 4\nlive 0 words 0\n";
    let written = driven_summary(&rt, workload)?;
    assert!(rt; written.as_slice() == text.as_bytes());
    Ok(())
}
