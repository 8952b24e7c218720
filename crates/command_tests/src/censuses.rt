//! Reports with what the closed heap holds.

use crate::running::{Left, Told, run_on, writes};
use crate::texts::{push_allocations, push_frees};
use command_line::status::REPORTED;
use edge_io::memory::MemorySink;
use std::alloc::{AllocError, Global};
use std::process::Abort;
use std::sync::Wait;
use std::test::Fail;
use std::thread::Threads;

/// The plain run: two superblocks are active, with 64 blocks each that are offered.
#[test]
fn every_block_is_counted(rt: HostRuntime) -> Result<(), Fail> {
    let trace = "heap 4 1 2\nlane\na 0 1 5\na 1 3 7\nc 1\nf 0\nf 1\nend\n";
    let text = "heap 4 1 2 lanes 1
lane 0
given 1
given 3
sum 24
freed
freed
live 0 words 0
class 0 blocks 2048 free 1984 reserved 64 live 0
class 1 blocks 1024 free 960 reserved 64 live 0
class 2 blocks 0 free 0 reserved 0 live 0
class 3 blocks 0 free 0 reserved 0 live 0
class 4 blocks 0 free 0 reserved 0 live 0
class 5 blocks 0 free 0 reserved 0 live 0
class 6 blocks 0 free 0 reserved 0 live 0
class 7 blocks 0 free 0 reserved 0 live 0
class 8 blocks 0 free 0 reserved 0 live 0
class 9 blocks 0 free 0 reserved 0 live 0
class 10 blocks 0 free 0 reserved 0 live 0
free frames 2 units 2
";
    writes(&rt, "census", trace, (REPORTED, Left::Shared), text)
}

/// Eight lanes that allocate blocks of many classes, put some on shelves, free some, and keep the others.
fn busy_lanes(alloc: Global) -> Result<String, AllocError> {
    let mut trace = String::new(alloc);
    trace.push_str("heap 64 2 8\n")?;
    for lane in 0..8u32 {
        push_busy_lane(&mut trace, lane)?;
    }
    trace.push_str("end\n")?;
    Ok(trace)
}

/// One of them.
fn push_busy_lane(trace: &mut String, lane: u32) -> Result<(), AllocError> {
    trace.push_str("lane\n")?;
    push_allocations(trace, 40, 0, 25)?;
    push_puts(trace, lane)?;
    push_frees(trace, 8, 30)?;
    trace.push_str("a 40 5000 1\n")
}

/// A lane puts its first eight blocks on shelves of its own.
fn push_puts(trace: &mut String, lane: u32) -> Result<(), AllocError> {
    for k in 0..8u32 {
        let shelf = lane.saturating_mul(8).saturating_add(k);
        write!(trace, "p {k} {shelf}\n")?;
    }
    Ok(())
}

/// The number that stands behind a word in a line; 0 where none does.
fn number_behind(line: &str, word: &str) -> u64 {
    let mut is_behind = false;
    for field in line.split_whitespace() {
        if is_behind {
            return field.parse().unwrap_or(0);
        }
        is_behind = field == word;
    }
    0
}

/// Whether a line of a class adds up.
fn adds_up(line: &str) -> bool {
    let parts = number_behind(line, "free")
        .saturating_add(number_behind(line, "reserved"))
        .saturating_add(number_behind(line, "live"));
    number_behind(line, "blocks") == parts
}

/// What the lines of a census come to.
#[derive(Drop)]
struct Sums {
    /// How many classes add up.
    classes: u32,
    /// How many blocks are live by the lines of classes.
    live: u64,
    /// How many are live by the report.
    told: u64,
    /// How many large blocks were given.
    large: u32,
}

impl Sums {
    /// Adds a line of a class.
    fn add_class(&mut self, line: &str) {
        if adds_up(line) {
            self.classes = self.classes.saturating_add(1);
        }
        self.live = self.live.saturating_add(number_behind(line, "live"));
    }

    /// Adds a line.
    fn add(&mut self, line: &str) {
        if line.starts_with("class ") {
            self.add_class(line);
        } else if line.starts_with("live ") {
            self.told = self.told.saturating_add(number_behind(line, "live"));
        } else if line == "given 6143" {
            self.large = self.large.saturating_add(1);
        }
    }

    /// The sums of a census.
    fn of(text: &str) -> Sums {
        let mut sums = Sums {
            classes: 0,
            live: 0,
            told: 0,
            large: 0,
        };
        for line in text.lines() {
            sums.add(line);
        }
        sums
    }
}

/// How the lanes' run ends, and its census.
fn run_busy<R: Threads + Wait + Sync>(
    rt: &R,
    alloc: Global,
) -> Result<(Told, MemorySink), AllocError> {
    let trace = busy_lanes(alloc)?;
    run_on(rt, alloc, "census", trace.as_str())
}

/// A census adds up: each class, and what is live, but for two large blocks.
fn census_adds_up<R: Abort + AllocGlobal>(rt: &R, text: &str) {
    let sums = Sums::of(text);
    assert!(rt; sums.classes == 11);
    assert!(rt; sums.large == 2);
    assert!(rt; sums.told == sums.live.saturating_add(2));
    assert!(rt; text.ends_with("units 2\n"));
}

/// The columns of each class add up, and what is live is what the report says, but for large blocks.
#[test]
fn columns_add_up(rt: HostRuntime) -> Result<(), Fail> {
    let (told, sink) = run_busy(&rt, rt.alloc())?;
    assert!(rt; told == (REPORTED, Left::Shared));
    let Ok(text) = str::from_utf8(sink.bytes()) else {
        panic!(rt; "a census is text");
    };
    census_adds_up(&rt, text);
    Ok(())
}
