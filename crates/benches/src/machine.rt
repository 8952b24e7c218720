//! Steps of the machine in a row, on one thread, and plain memory accesses as many.

ghost use Rattle.heap_geometry.specs.Geometry.{IsChecked};

use crate::command::{Command, Mix};
use crate::counts::print_line;
use std::alloc::Global;
use std::io;
use std::io::Print;
use step_machine::machine::Core;

mod bare;
mod mix;
mod run;
mod sums;

/// Makes memory accesses alone, and prints how many they were and what they summed up. None can be wrong.
pub fn print_accesses<R: Print>(rt: &R, alloc: Global, command: Command) -> io::Result<u64>
    requires { IsChecked command.geometry }
{
    let sum = bare::access(alloc, command.seed, command.count, command.geometry)?;
    print_line(rt, &[("accesses", command.count), ("sum", sum)])?;
    Ok(0)
}

/// Makes steps of the machine, and prints the counts. None can be wrong.
pub fn print_counts<R: Print>(rt: &R, alloc: Global, mix: Mix, command: Command) -> io::Result<u64>
    requires { IsChecked command.geometry }
{
    let core = run::run(alloc, mix, command.seed, command.count, command.geometry)?;
    print_core(rt, &core)?;
    Ok(0)
}

/// Prints the counts of a machine.
fn print_core<R: Print>(rt: &R, core: &Core) -> io::Result<()> {
    let counts = sums::counted(core);
    let line = [
        ("steps", core.steps()),
        ("events", core.events().len() as u64),
        ("words", sums::words(core)),
        ("history", sums::history(core.events())),
        ("won", counts.won),
        ("lost", counts.lost),
        ("cleared", counts.cleared),
        ("turns", counts.turns),
    ];
    print_line(rt, &line)
}
