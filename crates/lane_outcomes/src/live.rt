//! What is live at the end of a run, counted from the outcomes of its lanes.

ghost use Rattle.std.specs.Prelude.{ℕ, ◌≡◌, ◌-◌, ◌^◌, List, map, length, min, None, replicate};
ghost use Rattle.pool_model.specs.declared.event.Event.{Event};
ghost use Rattle.pool_model.specs.Pool.{pool_of, live_words as words_of};
ghost use Rattle.pool_model.specs.Legal.{IsLegalWithoutCounts};
ghost use Rattle.std.specs.Option.{option_map};
ghost use Rattle.trace_text.specs.declared.limits.TheConstants.{REGISTERS};
ghost use Rattle.trace_text.specs.Traces.{IsTrace};
ghost use Rattle.lane_outcomes.specs.Fits.{OutcomesFit};
ghost use Rattle.lane_outcomes.specs.Lane.{held_in, registers_after};
ghost use Rattle.lane_outcomes.specs.LaneCounts.{words_given, words_freed, count_with, as_one, as_words, lane_given, lane_freed, lanes_given, lanes_freed, live_of, GrowsBy};

use crate::outcome::Outcome;
use crate::registers::{HeldBlock, Registers};
use heap_geometry::need::class_of;
use trace_text::trace::{Op, Trace};

/// Some blocks: how many they are, and their usable words together.
#[derive(Clone, Copy)]
struct Amount {
    blocks: u128,
    words: u128,
}

impl Amount {
    /// One block more, of so many words, if there is one.
    fn with(self, block: Option<u32>) -> Amount
        ensures { GrowsBy self result (count_with as_one block) (count_with as_words block) }
    {
        match block {
            Some(words) => Amount {
                blocks: self.blocks.saturating_add(1),
                words: self.words.saturating_add(u128::from(words)),
            },
            None => self,
        }
    }
}

/// The blocks that were given and those that were freed.
#[derive(Clone, Copy)]
struct Tally {
    given: Amount,
    freed: Amount,
}

/// No blocks.
const NOTHING: Amount = Amount {
    blocks: 0,
    words: 0,
};

/// The words of the block that the operation was given.
fn given_block(operation: Op, outcome: Outcome) -> Option<u32>
    ensures { result ≡ words_given operation outcome }
{
    match (operation, outcome) {
        (Op::Alloc { .. }, Outcome::Given { words, .. }) => Some(words),
        (Op::Resize { .. }, Outcome::Resized { words, .. }) => Some(words),
        _ => None,
    }
}

/// The words of the block that the register holds.
fn held_words(registers: &Registers, r: u16) -> Option<u32>
    ensures { result ≡ option_map (λ held. held.words) (held_in registers.now r) }
{
    match registers.get(r) {
        Some(held) => Some(held.words),
        None => None,
    }
}

/// The words of the block that the operation freed.
fn freed_block(registers: &Registers, operation: Op, outcome: Outcome) -> Option<u32>
    ensures { result ≡ words_freed registers.now operation outcome }
{
    match (operation, outcome) {
        (Op::Free { r }, Outcome::Freed) => held_words(registers, r),
        (Op::Resize { r, .. }, Outcome::Resized { .. }) => held_words(registers, r),
        _ => None,
    }
}

/// Changes the registers as the operation with its outcome does.
fn follow(registers: &mut Registers, operation: Op, outcome: Outcome)
    ensures { registers.new ≡ registers_after registers.old operation outcome }
{
    match (operation, outcome) {
        (Op::Alloc { r, need, .. }, Outcome::Given { words, place }) => {
            let need = class_of(need);
            registers.set(r, Some(HeldBlock { place, words, need }));
        }
        (Op::Resize { r, need }, Outcome::Resized { words, place }) => {
            let need = class_of(need);
            registers.set(r, Some(HeldBlock { place, words, need }));
        }
        (Op::Take { r, .. }, Outcome::Took { words, place, need }) => {
            registers.set(r, Some(HeldBlock { place, words, need }));
        }
        (Op::Free { r }, Outcome::Freed) => registers.set(r, None),
        (Op::Put { r, .. }, Outcome::Put) => registers.set(r, None),
        _ => {}
    }
}

/// Adds what a lane was given and what it freed.
fn count_lane(start: Tally, operations: &[Op], outcomes: &[Outcome]) -> Tally
    ensures given { GrowsBy start.given result.given
        (lane_given as_one operations.now outcomes.now) (lane_given as_words operations.now outcomes.now) }
    ensures freed { GrowsBy start.freed result.freed
        (lane_freed as_one (replicate REGISTERS None) operations.now outcomes.now)
        (lane_freed as_words (replicate REGISTERS None) operations.now outcomes.now) }
{
    let mut given = start.given;
    let mut freed = start.freed;
    let mut registers = Registers::new();
    for (k, outcome) in outcomes.iter().enumerate() {
        let Some(operation) = operations.get(k) else {
            return Tally { given, freed };
        };
        given = given.with(given_block(*operation, *outcome));
        freed = freed.with(freed_block(&registers, *operation, *outcome));
        follow(&mut registers, *operation, *outcome);
    }
    Tally { given, freed }
}

/// What all lanes were given and what they freed.
fn count_lanes(trace: &Trace, outcomes: &[Vec<Outcome>]) -> Tally
    ensures given { GrowsBy NOTHING result.given
        (lanes_given as_one trace.now.lanes (map (λ lane. lane.items) outcomes.now))
        (lanes_given as_words trace.now.lanes (map (λ lane. lane.items) outcomes.now)) }
    ensures freed { GrowsBy NOTHING result.freed
        (lanes_freed as_one trace.now.lanes (map (λ lane. lane.items) outcomes.now))
        (lanes_freed as_words trace.now.lanes (map (λ lane. lane.items) outcomes.now)) }
{
    let lanes = trace.lanes.as_slice();
    let mut tally = Tally {
        given: NOTHING,
        freed: NOTHING,
    };
    for (lane, results) in outcomes.iter().enumerate() {
        let Some(operations) = lanes.get(lane) else {
            return tally;
        };
        tally = count_lane(tally, operations, results);
    }
    tally
}

/// The number, or the most that fits.
fn narrow(number: u128) -> u32
    ensures { result ≡ min number (2 ^ 32 - 1) }
{
    if number < u128::from(u32::MAX) {
        number as u32
    } else {
        u32::MAX
    }
}

fn narrow_words(number: u128) -> u64
    ensures { result ≡ min number (2 ^ 64 - 1) }
{
    if number < u128::from(u64::MAX) {
        number as u64
    } else {
        u64::MAX
    }
}

/// How many blocks are live when the lanes of a trace have had these outcomes, and how many usable
/// words they have together: what was given less what was freed. A block on a shelf is live.
///
/// Sums and differences that don't fit are the most that fits, or 0; where the outcomes fit a history
/// of the trace's heap none of them is.
pub fn live_count(trace: &Trace, outcomes: &[Vec<Outcome>]) -> (u32, u64)
    ensures live { (history : List Event) (lost : ℕ) → IsTrace trace.now → IsLegalWithoutCounts trace.now.heap history
        → OutcomesFit trace.now.heap history lost trace.now.lanes (map (λ lane. lane.items) outcomes.now)
        → (result.0 ≡ length (pool_of history)) × (result.1 ≡ words_of (pool_of history)) }

    // Of any trace and outcomes, also where there are more of the ones than of the others.
    ensures blocks { result.0 ≡ live_of as_one (2 ^ 32 - 1) trace.now.lanes (map (λ lane. lane.items) outcomes.now) }
    ensures words { result.1 ≡ live_of as_words (2 ^ 64 - 1) trace.now.lanes (map (λ lane. lane.items) outcomes.now) }
{
    let tally = count_lanes(trace, outcomes);
    let blocks = tally.given.blocks.saturating_sub(tally.freed.blocks);
    let words = tally.given.words.saturating_sub(tally.freed.words);
    (narrow(blocks), narrow_words(words))
}
