//! A random script of calls on a store beside plain lists, while another caller of the heap goes on.

ghost use Rattle.heap_geometry.specs.Geometry.{IsChecked};

use crate::command::{Command, Company};
use crate::counts::print_line;
use heap_scripts::stores::sums::Sums;
use heap_scripts::stores::together::{run_by_turns, run_on_threads};
use std::alloc::{AllocError, Global};
use std::io;
use std::io::Print;
use std::thread::Threads;

/// Makes the calls, prints what they came to, and answers how much differed.
pub fn print_sums<R: Print + Threads + Sync>(
    rt: &R,
    alloc: Global,
    company: Company,
    command: Command,
) -> io::Result<u64>
    requires { IsChecked command.geometry }
{
    let Some(sums) = sums_of(rt, alloc, company, command)? else {
        println!(rt; "there is no second caller")?;
        return Ok(1);
    };
    let counts = [
        ("calls", sums.calls),
        ("stored", sums.stored),
        ("taken", sums.taken),
        ("refused", sums.refused),
        ("spent", sums.spent),
        ("busy_pairs", sums.busy_pairs),
        ("busy_records", sums.busy_records),
        ("busy_frees", sums.busy_frees),
        ("resumed", sums.resumed),
        ("read", sums.read),
        ("lost", sums.lost),
        ("differed", sums.differed),
    ];
    print_line(rt, &counts)?;
    Ok(sums.differed)
}

/// What the calls come to.
fn sums_of<R: Threads + Sync>(
    rt: &R,
    alloc: Global,
    company: Company,
    command: Command,
) -> Result<Option<Sums>, AllocError>
    requires { IsChecked command.geometry }
{
    let Command {
        geometry,
        seed,
        count,
        ..
    } = command;
    match company {
        Company::ByTurns => run_by_turns(alloc, geometry, seed, count),
        Company::OnThreads => run_on_threads(rt, alloc, geometry, seed, count),
    }
}
