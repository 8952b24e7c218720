//! Schedules that meet a bound of the machine, or miss it by one: how many frames are part-used where a
//! caller looks for their class in vain, how many are bare where one is refused, how many exchanges are
//! lost, and how many turns an allocation takes.

ghost use Rattle.std.specs.Prelude.{◌≤◌, length};
ghost use Rattle.trace_text.specs.declared.limits.TheConstants.{MAX_INPUT};

use edge_io::gate::NoGate;
use heap_geometry::limits::{CLASSES, FRAME_WORDS};
use heap_geometry::need::{Need, block_count, class_of};
use lane_outcomes::outcome::Outcome;
use pool_model::event::Event;
use std::alloc::{AllocError, Global};
use std::process::Abort;
use std::test::Fail;
use step_machine::machine::Core;
use text_tests::printed::trace_of;
use trace_commands::driven::{DrivenRun, drive};
use trace_text::limits::MAX_INPUT;

/// What is live in a frame: so many blocks, all of one class.
#[derive(Clone, Copy)]
struct Frame {
    class: u8,
    live: u32,
}

/// What a frame may be: without a live block, or with a live block of a class and room for another one.
#[derive(Clone, Copy)]
enum Use {
    Bare,
    PartOf(u8),
}

impl Frame {
    fn is(self, wanted: Use) -> bool {
        match wanted {
            Use::Bare => self.live == 0,
            Use::PartOf(class) => {
                class < CLASSES
                    && self.class == class
                    && 0 < self.live
                    && self.live < block_count(class)
            }
        }
    }
}

/// The frames of a heap, as events fill and empty them, and what was seen of them.
#[derive(Drop)]
struct Frames {
    frames: Vec<Frame>,
    /// The most that were part-used in a class where a caller looked for it in vain.
    part_used: u32,
    /// The most that were bare where one was refused a small need.
    bare: u32,
}

impl Frames {
    /// So many frames, in which nothing is live.
    fn new(alloc: Global, count: usize) -> Result<Frames, AllocError> {
        let empty = Frame { class: 0, live: 0 };
        Ok(Frames {
            frames: vec![in alloc; empty; count]?,
            part_used: 0,
            bare: 0,
        })
    }

    /// How many are in this use.
    fn count(&self, wanted: Use) -> u32 {
        let mut count: u32 = 0;
        for frame in &self.frames {
            if frame.is(wanted) {
                count = count.saturating_add(1);
            }
        }
        count
    }

    /// A block of the class begins at the place.
    fn fill(&mut self, class: u8, place: u32) {
        if let Some(frame) = self.frames.get_mut((place / FRAME_WORDS) as usize) {
            frame.class = class;
            frame.live = frame.live.saturating_add(1);
        }
    }

    /// The block at the place is freed; a large one is in no frame.
    fn empty(&mut self, place: u32) {
        if let Some(frame) = self.frames.get_mut((place / FRAME_WORDS) as usize) {
            frame.live = frame.live.saturating_sub(1);
        }
    }

    /// Goes on by an event.
    fn follow(&mut self, event: Event) {
        match event {
            Event::Alloc { need, place, .. } => {
                if let Need::Small(class) = class_of(need) {
                    self.fill(class, place);
                }
            }
            Event::Free { place, .. } => self.empty(place),
            Event::Looked { class, .. } => {
                self.part_used = self.part_used.max(self.count(Use::PartOf(class)));
            }
            Event::Refuse { need, .. } => {
                if let Need::Small(_) = class_of(need) {
                    self.bare = self.bare.max(self.count(Use::Bare));
                }
            }
            _ => {}
        }
    }

    /// Goes on by events.
    fn follow_all(&mut self, events: &[Event]) {
        for event in events {
            self.follow(*event);
        }
    }
}

/// How many small allocations were refused, and how many found no turn left.
#[derive(Drop)]
struct Failed {
    refused: u32,
    spent: u32,
}

impl Failed {
    /// Counts the outcomes of a lane.
    fn add(&mut self, lane: &[Outcome]) {
        for outcome in lane {
            match outcome {
                Outcome::Refused => self.refused = self.refused.saturating_add(1),
                Outcome::Spent => self.spent = self.spent.saturating_add(1),
                _ => {}
            }
        }
    }

    /// The counts of all lanes.
    fn of(outcomes: &[Vec<Outcome>]) -> Failed {
        let mut failed = Failed {
            refused: 0,
            spent: 0,
        };
        for lane in outcomes {
            failed.add(lane.as_slice());
        }
        failed
    }
}

/// What all callers of a machine won and lost.
fn exchanges(core: &Core) -> (u64, u64) {
    let mut won: u64 = 0;
    let mut lost: u64 = 0;
    for caller in 0..core.geometry().callers {
        won = won.saturating_add(core.won(caller));
        lost = lost.saturating_add(core.lost(caller));
    }
    (won, lost)
}

/// What a run comes to: how many small allocations are refused and how many find no turn left, the most
/// frames that are part-used and bare at its events, and what all callers win and lose.
type Met = (u32, u32, u32, u32, u64, u64);

/// What a run of a heap with so many frames came to.
fn met_in(alloc: Global, frames: usize, run: &DrivenRun) -> Result<Met, AllocError> {
    let mut frames = Frames::new(alloc, frames)?;
    frames.follow_all(run.core.events());
    let Failed { refused, spent } = Failed::of(run.outcomes.as_slice());
    let (won, lost) = exchanges(&run.core);
    Ok((refused, spent, frames.part_used, frames.bare, won, lost))
}

/// What the run comes to that a text names.
fn met_by(alloc: Global, text: &[u8]) -> Result<Met, Fail>
    requires { length text.now ≤ MAX_INPUT }
{
    let trace = trace_of(alloc, text)?;
    let run = drive(alloc, &NoGate, &trace)?;
    Ok(met_in(alloc, trace.heap.frames as usize, &run)?)
}

/// Operations that allocate a block of each class and free it, but keep the last one.
const ONE_OF_EACH_CLASS: &str =
    "a 0 1 1\nf 0\na 0 3 1\nf 0\na 0 7 1\nf 0\na 0 15 1\nf 0\na 0 31 1\nf 0\na 0 63 1\nf 0\na 0 127 1\nf 0\na 0 255 1\nf 0\na 0 511 1\nf 0\na 0 1023 1\nf 0\na 0 2047 1\n";

/// Operations that leave the last superblock of the greatest class empty in the middle of a free.
const SLOW_FREE: &str = "a 1 2047 1\na 2 2047 1\nf 2\nf 0\nf 1\n";

/// A lane looks for a class in which 3 of 3 frames are part-used; four are allowed.
const THREE_PART_USED: &[&str] = &[
    "heap 3 1 0\nlane\na 0 2047 1\nlane\na 0 2047 1\na 1 2047 1\na 2 2047 1\na 3 2047 1\na 4 2047 1\nf 0\nf 2\norder 0 2\norder 1 10316\norder 0 10\nend\n",
];

/// A lane looks for a class in which 9 of 11 frames are part-used; ten are allowed.
const NINE_PART_USED: &[&str] = &[
    "heap 11 2 0\nlane\na 0 2047 1\nlane\na 0 2047 1\na 1 2047 1\na 2 2047 1\na 3 2047 1\na 4 2047 1\nf 0\nf 2\nf 1\nlane\na 0 2047 1\na 1 2047 1\na 2 2047 1\na 3 2047 1\na 4 2047 1\na 5 2047 1\na 6 2047 1\na 7 2047 1\na 8 2047 1\na 9 2047 1\na 10 2047 1\na 11 2047 1\na 12 2047 1\nf 0\nf 2\nf 4\nf 6\nf 8\nf 10\nlane\na 0 2047 1\na 1 2047 1\nf 0\nf 1\norder 0 2\norder 3 4120\norder 1 10306\norder 3 6\norder 1 24\norder 3 6\norder 2 26846\norder 1 12\norder 3 12\norder 0 2\nend\n",
];

/// A lane is refused where all 12 frames are bare, of one heap and two callers.
const TWELVE_BARE: &[&str] = &[
    "heap 12 1 0\nlane\n",
    ONE_OF_EACH_CLASS,
    "lane\na 0 2047 1\n",
    SLOW_FREE,
    "order 0 6340\norder 1 6202\norder 0 10\nend\n",
];

/// A lane is refused where all 24 frames are bare, of two heaps and three callers.
const TWENTY_FOUR_BARE: &[&str] = &[
    "heap 24 2 0\nlane\n",
    ONE_OF_EACH_CLASS,
    "lane\n",
    ONE_OF_EACH_CLASS,
    SLOW_FREE,
    "lane\na 0 2047 1\n",
    SLOW_FREE,
    "order 0 6338\norder 1 6338\norder 0 2\norder 1 6202\norder 2 6202\norder 0 10\nend\n",
];

/// Each exchange that one lane wins is lost by the other.
const EACH_WIN_IS_A_LOSS: &[&str] = &[
    "heap 1 1 2\nlane\na 0 4096 1\nlane\na 0 2048 1\nf 0\na 0 2048 1\nf 0\norder 0 1\norder 1 2\norder 0 2\norder 1 4098\norder 0 2\norder 1 2\norder 0 2\norder 1 4098\norder 0 1\nend\n",
];

/// A lane is refused its one block in eleven frames, where another lane holds at most one: eleven frames
/// are too few for both to be sure of a block.
const ELEVEN_TOO_FEW: &[&str] = &[
    "heap 11 1 0\nlane\na 0 2047 1\nlane\n",
    ONE_OF_EACH_CLASS,
    "f 0\norder 1 6338\norder 0 2\norder 1 2070\norder 0 10\nend\n",
];

/// Three allocations where two turns are left to each lane: one of them takes two turns, and none is left.
const ONE_TURN_TOO_FEW: &[&str] = &[
    "heap 15 1 0 2\nlane\na 0 2047 1\nlane\na 0 2047 1\nf 0\na 0 2047 1\nf 0\norder 0 17\norder 1 2070\norder 0 1\norder 1 2\norder 0 20\norder 1 2057\norder 0 4\nend\n",
];

/// The parts of the texts, and what their runs come to.
const ROWS: &[(&[&str], Met)] = &[
    (THREE_PART_USED, (1, 0, 3, 0, 19, 0)),
    (NINE_PART_USED, (0, 0, 9, 0, 95, 1)),
    (TWELVE_BARE, (1, 0, 0, 12, 55, 0)),
    (TWENTY_FOUR_BARE, (1, 0, 0, 24, 109, 0)),
    (EACH_WIN_IS_A_LOSS, (1, 0, 0, 0, 4, 4)),
    (ELEVEN_TOO_FEW, (1, 0, 0, 11, 45, 0)),
    (ONE_TURN_TOO_FEW, (0, 1, 0, 0, 14, 2)),
];

/// The run that a text names comes to this.
fn is_met<R: Abort + AllocGlobal>(rt: &R, parts: &[&str], expected: Met) -> Result<(), Fail> {
    let text = parts.join(rt.alloc(), "")?;
    assert!(rt; text.len() <= MAX_INPUT);
    let met = met_by(rt.alloc(), text.as_bytes())?;
    assert!(rt; met == expected, "{text}");
    Ok(())
}

#[test]
fn bounds_are_met_or_missed_by_one(rt: HostRuntime) -> Result<(), Fail> {
    for (parts, expected) in ROWS {
        is_met(&rt, parts, *expected)?;
    }
    Ok(())
}
