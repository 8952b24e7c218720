//! Calls on one heap from threads, and bare atomic accesses as many.

ghost use Rattle.heap_geometry.specs.Geometry.{IsChecked};

use crate::command::{Command, Steps, Task};
use crate::counts::print_line;
use block_cache::cache::Cache;
use live_heap::pass::Pass;
use run::Outcome;
use std::alloc::Global;
use std::io;
use std::io::Print;
use std::sync::Wait;
use std::thread::Threads;

mod bare;
mod cached;
mod calls;
mod front;
mod rounds;
mod run;
mod stamps;
mod steps;
mod tally;
mod worker;

/// Makes atomic accesses alone, and prints how many they were. None can be wrong.
pub fn print_accesses<R: Print + Threads + Sync>(
    rt: &R,
    alloc: Global,
    command: Command,
) -> io::Result<u64>
    requires { IsChecked command.geometry }
{
    let accesses = bare::access(rt, alloc, command)?;
    print_line(rt, &[("accesses", accesses)])?;
    Ok(0)
}

/// Makes steps, each thread by its pass, and prints the counts.
pub fn print_steps<R: Print + Threads + Wait + Sync>(
    rt: &R,
    alloc: Global,
    steps: Steps,
    command: Command,
) -> io::Result<u64>
    requires { IsChecked command.geometry }
{
    let outcome = run::run::<R, Pass, Steps>(rt, alloc, &steps, command)?;
    print_outcome(rt, outcome)
}

/// Does the task, each thread by its pass, prints the counts, and answers how many words were wrong.
pub fn print_counts<R: Print + Threads + Wait + Sync>(
    rt: &R,
    alloc: Global,
    task: Task,
    command: Command,
) -> io::Result<u64>
    requires { IsChecked command.geometry }
{
    let outcome = run::run::<R, Pass, Task>(rt, alloc, &task, command)?;
    print_outcome(rt, outcome)
}

/// Does the task, each thread through a cache in front of its pass, prints the counts, and answers how many
/// words were wrong.
pub fn print_cached<R: Print + Threads + Wait + Sync>(
    rt: &R,
    alloc: Global,
    task: Task,
    command: Command,
) -> io::Result<u64>
    requires { IsChecked command.geometry }
{
    let outcome = run::run::<R, Cache, Task>(rt, alloc, &task, command)?;
    print_outcome(rt, outcome)
}

/// Prints the counts, and answers how many words were wrong.
fn print_outcome<R: Print>(rt: &R, outcome: Outcome) -> io::Result<u64> {
    let tally = outcome.tally;
    let counts = [
        ("made", tally.made),
        ("given", tally.given),
        ("refused", tally.refused),
        ("freed", tally.freed),
        ("put", tally.put),
        ("taken", tally.taken),
        ("missed", tally.missed),
        ("busy", tally.busy),
        ("cleared", tally.cleared),
        ("words", tally.words),
        ("wrong", tally.wrong),
        ("won", outcome.won),
        ("lost", outcome.lost),
    ];
    print_line(rt, &counts)?;
    Ok(tally.wrong)
}
