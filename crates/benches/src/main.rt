//! Benches, for a clock beside them: calls on one heap from many threads, and steps of the machine in a
//! row on one thread, each beside bare accesses of the same kind as many; puts the heap under stress; and
//! makes whole calls and their steps beside each other.
//!
//! `benches PLACE MODE SEED COUNT CALLERS FRAMES HEAPS UNITS ..`: one bench or more, of eight words each.
//! Where the place is `heap`, each of CALLERS threads (1 to 16) makes COUNT atomic accesses at random
//! places of a table of as many words as the heap has (`bare`), or has a pass of the heap and makes
//! COUNT steps of allocations of one word with their frees (`steps`) or without (`hold`), COUNT
//! allocations of one word with their frees (`pairs`), COUNT rounds in which it fills and checks the words
//! of a block that it keeps (`words`) or allocates for them (`blocks`), or COUNT rounds of calls of all
//! kinds on blocks that it fills and checks (`stress`); or one thread makes COUNT calls of a random script
//! for CALLERS callers of two heaps, on the one as wholes and on the other step by step (`script`).
//! Where it is `cache`, each thread has a cache with magazines for 64 blocks of a class in front of its pass,
//! through which it makes the calls of `pairs`, `words`, `blocks` or `stress`; or each of 1, 2 or 4 threads takes a piece
//! of SEED words of a page, lays them, sums them and gives it back, COUNT times (`pieces`). Where it is `store`, one thread
//! makes COUNT pushes, each with a pop behind it, through a store for each of the callers in turn (`pairs`);
//! or a store of the first caller makes COUNT calls of a random script, beside plain lists, while the second
//! caller makes steps of its own in between (`turns`) or on another thread (`threads`).
//! Where it is `collections` or `global`, each of 1, 2 or 4 threads makes COUNT times a collection of SEED words or
//! keys, sums it and drops it, in a heap or over the C library: a vector with room for them (`block`), one that grows
//! (`grow`), or a map, each of whose keys is looked up (`tree`).
//! Where it is `machine`, one thread loads a word, compares it and stores it, COUNT times, at random places
//! of such a table (`bare`), or makes COUNT steps of a machine on which calls of a mix are begun (`hold`,
//! `all`, `mingled`).
//!
//! It prints a line of counts for each bench, so that tools/bench_heap.py, bench_steps.py and others can
//! time it, and tools/try_calls.py can compare them. All words are read before a bench begins, and a bench
//! that does not end well is the last: with the exit status 1 where a word of a block was not what its
//! owner had written there, or a whole call came to another thing than its steps.
#![tactic(auto)]

ghost use Rattle.std.specs.Prelude.{All};
ghost use Rattle.heap_geometry.specs.Geometry.{IsChecked};

use command::{Bench, Command, commands_of};
use std::alloc::Global;
use std::io::Print;
use std::process::ExitCode;
use std::rt::Env;
use std::sync::Wait;
use std::thread::Threads;
use std::{env, io};

mod collections;
mod command;
mod counts;
mod heap;
mod machine;
mod pieces;
mod script;
mod store;
mod store_script;

/// The exit status where something was wrong.
const WRONG: u8 = 1;

/// The exit status where the words behind the program's name are no commands.
const USAGE: u8 = 2;

/// The exit status where something else failed.
const FAILED: u8 = 6;

/// The words behind the program's name.
fn words<R: Env + AllocGlobal>(rt: &R, alloc: Global) -> io::Result<Vec<String>> {
    let mut words = Vec::new(alloc);
    for word in env::args(rt)?.skip(1) {
        words.push(word)?;
    }
    Ok(words)
}

/// Does what the command says, prints the counts, and answers how much was wrong.
fn print_counts<R: Print + Threads + Wait + Sync>(
    rt: &R,
    alloc: Global,
    command: Command,
) -> io::Result<u64>
    requires { IsChecked command.geometry }
{
    match command.bench {
        Bench::Atomics => heap::print_accesses(rt, alloc, command),
        Bench::Steps(steps) => heap::print_steps(rt, alloc, steps, command),
        Bench::Heap(task) => heap::print_counts(rt, alloc, task, command),
        Bench::Cache(task) => heap::print_cached(rt, alloc, task, command),
        Bench::Script => script::print_sums(rt, alloc, command),
        Bench::Store => store::print_sums(rt, alloc, command),
        Bench::StoreScript(company) => store_script::print_sums(rt, alloc, company, command),
        Bench::Collections(place, what) => collections::print_sum(rt, alloc, place, what, command),
        Bench::Accesses => machine::print_accesses(rt, alloc, command),
        Bench::Machine(mix) => machine::print_counts(rt, alloc, mix, command),
    }
}

/// Does what the commands say, up to the first that does not end well, and answers the exit status.
fn status_of<R: Print + Threads + Wait + Sync>(rt: &R, alloc: Global, commands: &[Command]) -> u8
    requires { All (λ command. IsChecked command.geometry) commands.now }
{
    for command in commands {
        match print_counts(rt, alloc, *command) {
            Ok(0) => {}
            Ok(_) => return WRONG,
            Err(_) => return FAILED,
        }
    }
    0
}

fn main(rt: HostRuntime) -> ExitCode {
    let alloc = rt.alloc();
    let Ok(words) = words(&rt, alloc) else {
        return ExitCode::from(FAILED);
    };
    let status = match commands_of(alloc, words.as_slice()) {
        Ok(Some(commands)) => status_of(&rt, alloc, commands.as_slice()),
        Ok(None) => USAGE,
        Err(_) => FAILED,
    };
    ExitCode::from(status)
}
