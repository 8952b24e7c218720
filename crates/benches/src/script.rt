//! A random script of calls on two heaps beside each other: whole calls on the one, and steps on the other.

ghost use Rattle.heap_geometry.specs.Geometry.{IsChecked};

use crate::command::Command;
use crate::counts::print_line;
use heap_geometry::geometry::Geometry;
use heap_scripts::compare::compare;
use std::alloc::Global;
use std::io;
use std::io::Print;

/// In one script of five each caller has so few turns, so that some allocations find none left.
const FEW_TURNS: u64 = 40;

/// The heap of the script of this number.
fn geometry_of(geometry: Geometry, seed: u64) -> Geometry
    requires { IsChecked geometry }
    ensures { IsChecked result }
{
    if seed % 5 == 0 {
        Geometry {
            turn_limit: FEW_TURNS,
            ..geometry
        }
    } else {
        geometry
    }
}

/// Makes the calls, prints what they came to, and answers how much differed.
pub fn print_sums<R: Print>(rt: &R, alloc: Global, command: Command) -> io::Result<u64>
    requires { IsChecked command.geometry }
{
    let geometry = geometry_of(command.geometry, command.seed);
    let Some(sums) = compare(alloc, geometry, command.seed, command.count)? else {
        println!(rt; "a caller is in a call still")?;
        return Ok(1);
    };
    let counts = [
        ("calls", sums.calls),
        ("given", sums.given),
        ("refused", sums.refused),
        ("spent", sums.spent),
        ("freed", sums.freed),
        ("busy", sums.busy),
        ("steps", sums.steps),
        ("won", sums.won),
        ("lost", sums.lost),
        ("cleared", sums.cleared),
        ("words", sums.words),
        ("differed", sums.differed),
    ];
    print_line(rt, &counts)?;
    Ok(sums.differed)
}
