//! The commands that the words behind the program's name are.

ghost use Rattle.std.specs.Prelude.{IfOk, IfSome, All};
ghost use Rattle.heap_geometry.specs.Geometry.{IsChecked};

use heap_geometry::geometry::Geometry;
use heap_geometry::limits::MAX_TURNS;
use std::alloc::{AllocError, Global};

/// How many words a command has.
const WORDS: usize = 8;

/// Steps of allocations of one word.
#[derive(Clone, Copy)]
pub struct Steps {
    /// Whether each block is freed behind its allocation.
    pub frees: bool,
}

/// What the threads do with a heap by whole calls.
#[derive(Clone, Copy)]
pub enum Task {
    /// Allocations of one word, each with its free behind it.
    Pairs,
    /// A block of 31 words that is filled and checked again and again.
    Words,
    /// Allocations of 31 words that are filled, checked and freed.
    Blocks,
    /// Calls of all kinds on blocks that are filled and checked.
    Stress,
}

/// Which calls are begun on the machine, and whose step is the next one.
#[derive(Clone, Copy)]
pub enum Mix {
    /// Each caller in turn asks for one usable word again and again, and frees nothing.
    Hold,
    /// Each caller in turn makes calls of all kinds.
    All,
    /// Callers in random order make calls of all kinds.
    Mingled,
}

/// How another caller of the heap goes on beside a store.
#[derive(Clone, Copy)]
pub enum Company {
    /// By turns, on one thread.
    ByTurns,
    /// On a thread of its own.
    OnThreads,
}

/// Which collection a thread makes and drops, again and again.
#[derive(Clone, Copy)]
pub enum Collection {
    /// A vector with room for its words before they are pushed.
    Block,
    /// A vector that grows.
    Grow,
    /// A map.
    Tree,
    /// A piece of a page, by itself.
    Piece,
}

/// Where collections lie.
#[derive(Clone, Copy)]
pub enum Place {
    /// In a heap.
    Heap,
    /// In memory of the C library.
    Global,
}

/// What is timed.
#[derive(Clone, Copy)]
pub enum Bench {
    /// Atomic accesses alone, on threads.
    Atomics,
    /// Steps of passes of a heap, on threads.
    Steps(Steps),
    /// A heap at work, on threads.
    Heap(Task),
    /// A heap at work through caches, on threads.
    Cache(Task),
    /// Calls of a script on two heaps, on one thread.
    Script,
    /// Pushes and pops through stores, on one thread.
    Store,
    /// Calls of a script on a store, with another caller by turns or on a thread of its own.
    StoreScript(Company),
    /// Collections on 1, 2 or 4 threads.
    Collections(Place, Collection),
    /// Memory accesses alone, on one thread.
    Accesses,
    /// Steps of the machine, on one thread.
    Machine(Mix),
}

/// What the program is asked to do, how often, and in which heap. On threads each caller has one.
#[derive(Clone, Copy)]
pub struct Command {
    pub bench: Bench,
    /// Where the random numbers begin.
    pub seed: u64,
    /// How many accesses, steps, pairs or rounds are made: on threads, by each of them.
    pub count: u64,
    pub geometry: Geometry,
}

/// The bench of this place and mode.
fn bench_of(place: &str, mode: &str) -> Option<Bench> {
    let rows = [
        ("heap", "bare", Bench::Atomics),
        ("heap", "steps", Bench::Steps(Steps { frees: true })),
        ("heap", "hold", Bench::Steps(Steps { frees: false })),
        ("heap", "pairs", Bench::Heap(Task::Pairs)),
        ("heap", "words", Bench::Heap(Task::Words)),
        ("heap", "blocks", Bench::Heap(Task::Blocks)),
        ("heap", "stress", Bench::Heap(Task::Stress)),
        ("heap", "script", Bench::Script),
        ("cache", "pairs", Bench::Cache(Task::Pairs)),
        ("cache", "words", Bench::Cache(Task::Words)),
        ("cache", "blocks", Bench::Cache(Task::Blocks)),
        ("cache", "stress", Bench::Cache(Task::Stress)),
        (
            "cache",
            "pieces",
            Bench::Collections(Place::Heap, Collection::Piece),
        ),
        ("store", "pairs", Bench::Store),
        ("store", "turns", Bench::StoreScript(Company::ByTurns)),
        ("store", "threads", Bench::StoreScript(Company::OnThreads)),
        (
            "collections",
            "block",
            Bench::Collections(Place::Heap, Collection::Block),
        ),
        (
            "collections",
            "grow",
            Bench::Collections(Place::Heap, Collection::Grow),
        ),
        (
            "collections",
            "tree",
            Bench::Collections(Place::Heap, Collection::Tree),
        ),
        (
            "global",
            "block",
            Bench::Collections(Place::Global, Collection::Block),
        ),
        (
            "global",
            "grow",
            Bench::Collections(Place::Global, Collection::Grow),
        ),
        (
            "global",
            "tree",
            Bench::Collections(Place::Global, Collection::Tree),
        ),
        ("machine", "bare", Bench::Accesses),
        ("machine", "hold", Bench::Machine(Mix::Hold)),
        ("machine", "all", Bench::Machine(Mix::All)),
        ("machine", "mingled", Bench::Machine(Mix::Mingled)),
    ];
    for (at, name, bench) in rows {
        if at == place && name == mode {
            return Some(bench);
        }
    }
    None
}

/// A number of a heap.
fn number_of(word: &str) -> Option<u32> {
    word.parse().ok()
}

/// A number that a bench counts with.
fn count_of(word: &str) -> Option<u64> {
    word.parse().ok()
}

/// The geometry, where these words are one that a heap can have.
fn geometry_of(callers: &str, frames: &str, heaps: &str, units: &str) -> Option<Geometry>
    ensures { IfSome result (λ geometry. IsChecked geometry) }
{
    let geometry = Geometry {
        frames: number_of(frames)?,
        heaps: number_of(heaps)?,
        units: number_of(units)?,
        callers: number_of(callers)?,
        turn_limit: MAX_TURNS,
    };
    geometry.check().ok()
}

/// The command, where the words are one and its heap exists.
fn command_of(words: &[String]) -> Option<Command>
    ensures { IfSome result (λ command. IsChecked command.geometry) }
{
    match words {
        [place, mode, seed, count, callers, frames, heaps, units] => Some(Command {
            bench: bench_of(place.as_str(), mode.as_str())?,
            seed: count_of(seed.as_str())?,
            count: count_of(count.as_str())?,
            geometry: geometry_of(
                callers.as_str(),
                frames.as_str(),
                heaps.as_str(),
                units.as_str(),
            )?,
        }),
        _ => None,
    }
}

/// The commands, where the words are one or more, each behind the last.
pub fn commands_of(alloc: Global, words: &[String]) -> Result<Option<Vec<Command>>, AllocError>
    ensures { IfOk result (λ found. IfSome found (λ commands. All (λ command. IsChecked command.geometry) commands.items)) }
{
    if words.is_empty() {
        return Ok(None);
    }
    let mut commands = Vec::new(alloc);
    for own in words.chunks(WORDS) {
        let Some(command) = command_of(own) else {
            return Ok(None);
        };
        commands.push(command)?;
    }
    Ok(Some(commands))
}
