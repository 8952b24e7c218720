//! Atomic accesses alone.

ghost use Rattle.std.specs.Prelude.{◌≡◌, ◌<◌, ◌≤◌, All};
ghost use Rattle.heap_geometry.specs.Geometry.{IsChecked};
ghost use Rattle.crossbeam_utils.specs.Padded.{padded_value};
ghost use Rattle.benches.specs.declared.heap.bare.Walker.{Walker};

use crate::command::Command;
use atomic_table::{Play, Seat, Split, Table, TableRule};
use crossbeam_utils::CachePadded;
use heap_scripts::random::Random;
use std::alloc::{AllocError, Global};
use std::thread;
use std::thread::Threads;
use word_table::layout::Layout;

/// The rule of the table, its steps and its cuts, none of which says anything.
struct Nothing;

impl TableRule<u8, (), ()> for Nothing {
    ghost holds = { λ _ _. Unit {0} };

    ghost first = { λ _. tt };
}

impl Play<u8, ()> for Nothing {
    ghost then = { λ _ _ _ _. Unit {0} };
}

impl Split<()> for Nothing {
    ghost left = { λ v. v };

    ghost right = { λ v. v };
}

/// A table of such words.
type Words = Table<u8, (), (), Nothing, Global>;

/// What one thread works with.
#[derive(Drop)]
struct Walker {
    seat: Seat<u8, ()>,
    random: Random,
}

/// Loads, compares and exchanges, and stores words in turn, so many times in each thread, at random
/// places of a table of as many words as the heap has. Answers how many accesses were made.
pub fn access<R: Threads + Sync>(rt: &R, alloc: Global, command: Command) -> Result<u64, AllocError>
    requires { IsChecked command.geometry }
{
    let count = Layout::new(command.geometry).words();
    let zeros = vec![in alloc; 0u64; count as usize]?;
    let (table, mut seat) = Words::of_words(alloc, zeros.as_slice(), &())?;
    if count == 0 {
        return Ok(0);
    }
    let mut walkers = Vec::new(alloc);
    for caller in 0..command.geometry.callers {
        let seat = table.shared.split_seat::<Nothing>(&mut seat);
        walkers.push(CachePadded::new(Walker {
            seat,
            random: Random::new(command.seed, caller),
        }))?;
    }
    walk_all(rt, &table, count, walkers.as_mut_slice(), command.count);
    Ok(
        command
            .count
            .saturating_mul(u64::from(command.geometry.callers)),
    )
}

/// Each walker on a thread of its own.
fn walk_all<R: Threads + Sync>(
    rt: &R,
    table: &Words,
    words: u32,
    walkers: &mut [CachePadded<Walker>],
    count: u64,
)
    requires words { (0 < words) × (words ≤ table.now.shared.table_id.words) }
    requires seats { All (λ w. (padded_value {T = Walker} w).seat.table_id ≡ table.now.shared.table_id) walkers.old }
{
    if walkers.is_empty() {
        return;
    }
    let threads = walkers.len();
    thread::for_each_mut(
        rt,
        walkers,
        threads,
        &|_, walker: &mut CachePadded<Walker>|
            requires { (0 < words) × (words ≤ table.now.shared.table_id.words) × ((padded_value {T = Walker} walker.old).seat.table_id ≡ table.now.shared.table_id) }
        { walk(table, words, walker, count) },
    );
}

/// The accesses of one thread.
fn walk(table: &Words, words: u32, walker: &mut CachePadded<Walker>, count: u64)
    requires words { (0 < words) × (words ≤ table.now.shared.table_id.words) }
    requires seat { (padded_value {T = Walker} walker.old).seat.table_id ≡ table.now.shared.table_id }
{
    let walker: &mut Walker = walker;
    let shared = &table.shared;
    let mut last = 0;
    for number in 0..count {
        let place = walker.random.below(words) as usize;
        match number % 3 {
            0 => last = shared.load::<Nothing>(&mut walker.seat, place),
            1 => {
                last = shared.compare_exchange::<Nothing>(&mut walker.seat, place, last, number);
            }
            _ => shared.store::<Nothing>(&mut walker.seat, place, number),
        }
    }
}
