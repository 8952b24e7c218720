//! Where the reader stands in a text, and what one line says there.

ghost use Rattle.std.specs.Prelude.{◌≡◌, ◌+◌, ◌≤◌, ◌&&◌, ℕ, codes, length, nat_lt, true, false, IfOk};
ghost use Rattle.std.specs.List.{list_all};
ghost use Rattle.std.specs.Str.{bytes_eq};
ghost use Rattle.trace_text.specs.Causes.{Leaves};
ghost use Rattle.trace_text.specs.Lines.{fields_of, is_plain, lines_of};
ghost use Rattle.trace_text.specs.Reading.{reading_from};
ghost use Rattle.trace_text.specs.Said.{heap_in, version_in, is_unordered, after_lane, after_order, after_op, after_inner, after_first, after_word, after_line};
ghost use Rattle.trace_text.specs.Stages.{HasTrace};
ghost use Rattle.trace_text.specs.Traces.{IsTrace};
ghost use Rattle.trace_text.specs.declared.fault.Cause.TheVariants.{NotAscii};
ghost use Rattle.trace_text.specs.declared.fault.Stop.TheVariants as stops;
ghost use Rattle.trace_text.specs.declared.limits.TheConstants.{MAX_INPUT};
ghost use Rattle.trace_text.specs.declared.stage.ReadingStage.TheVariants.{Inside, Ended};
ghost use Rattle.trace_text.specs.declared.trace.Trace.{Trace};
ghost use Rattle.trace_text.specs.declared.trace.Version.TheVariants.{Two};

use crate::fault::{Cause, Stop};
use crate::fields::{heap_numbers, none, op, order, ranged};
use crate::limits::MAX_LANES;
use crate::lines::{first_field, is_comment, is_plain};
use crate::trace::{Lanes, Orders, Trace, Version};
use heap_geometry::geometry::Geometry;
use heap_geometry::limits::{MAX_FRAMES, MAX_HEAPS, MAX_TURNS, MAX_UNITS};
use std::alloc::{AllocError, Global};
use std::mem;

/// Where the reader stands: before the heap line, behind it with the trace so far, or behind `end`
/// with the whole trace.
#[derive(Drop)]
pub(crate) enum ReadingStage {
    Before,
    Inside(Trace),
    Ended(Trace),
}

/// The version that the word of a heap line says.
#[tactic(auto, unfolding(crate::specs::Said::version_in))]
fn version(word: &[u8]) -> Result<Version, Cause>
    ensures { result ≡ version_in Two word.now }
{
    if word == b"heap".as_slice() {
        Ok(Version::One)
    } else if word == b"heap2".as_slice() {
        Ok(Version::Two)
    } else {
        Err(Cause::NoHeapLine)
    }
}

/// The trace of this version that a heap line begins.
#[tactic(auto, unfolding(crate::specs::Said::heap_in))]
fn heap(alloc: Global, version: Version, fields: &[u8]) -> Result<Trace, Cause>
    ensures { result ≡ heap_in version (fields_of fields.now) }
{
    let (frames, heaps, units, limit) = heap_numbers(fields)?;
    let frames = ranged(Cause::BadGeometry, 1, u64::from(MAX_FRAMES), frames)? as u32;
    let heaps = ranged(Cause::BadGeometry, 1, u64::from(MAX_HEAPS), heaps)? as u32;
    let units = ranged(Cause::BadGeometry, 0, u64::from(MAX_UNITS), units)? as u32;
    let turn_limit = ranged(Cause::BadGeometry, 1, MAX_TURNS, limit.unwrap_or(MAX_TURNS))?;
    Ok(Trace {
        version,
        heap: Geometry {
            frames,
            heaps,
            units,
            callers: 1,
            turn_limit,
        },
        named_limit: limit.is_some(),
        lanes: Lanes::new(Vec::new(alloc)),
        orders: Orders::new(Vec::new(alloc)),
    })
}

/// A line `lane`.
#[tactic(auto, unfolding(crate::specs::Said::after_lane))]
fn lane(alloc: Global, trace: &mut Trace, fields: &[u8]) -> Result<(), Stop>
    requires { IsTrace trace.old }
    ensures { Leaves result (Inside trace.new) (after_lane trace.old (fields_of fields.now)) }
{
    if !trace.orders.is_empty() {
        return Err(Stop::Because(Cause::UnknownOp));
    }
    none(fields)?;
    if trace.lanes.len() >= MAX_LANES as usize {
        return Err(Stop::Because(Cause::TooManyLanes));
    }
    trace.heap.callers = trace.lanes.len() as u32 + 1;
    trace.lanes.push_lane(alloc)?;
    Ok(())
}

/// An order line.
#[tactic(auto, unfolding(crate::specs::Said::after_order))]
fn order_run(trace: &mut Trace, fields: &[u8]) -> Result<(), Stop>
    requires { IsTrace trace.old }
    ensures { Leaves result (Inside trace.new) (after_order trace.old (fields_of fields.now)) }
{
    let run = order(trace.lanes.len(), fields)?;
    trace.orders.push(run)?;
    Ok(())
}

/// Whether operations may stand here: a line `lane` and no order line came before.
fn is_in_lane(trace: &Trace) -> bool
    ensures { result ≡ (nat_lt 0 (length trace.now.lanes) && is_unordered trace.now) }
{
    !trace.lanes.is_empty() && trace.orders.is_empty()
}

/// An operation of the last lane.
#[tactic(auto, unfolding(crate::specs::Said::after_op))]
fn operation(trace: &mut Trace, word: &[u8], fields: &[u8]) -> Result<(), Stop>
    ensures { Leaves result (Inside trace.new) (after_op trace.old word.now (fields_of fields.now)) }
{
    if !is_in_lane(trace) {
        return Err(Stop::Because(Cause::UnknownOp));
    }
    let op = op(trace.version, word, fields)?;
    trace.lanes.push_op(op)?;
    Ok(())
}

/// Operations of the last lane, as long as their lines are as printed: how many lines there are,
/// and what is left behind them.
fn lane_ops<'a>(trace: &mut Trace, text: &'a [u8]) -> Result<(u32, &'a [u8]), AllocError>
    requires named { IsTrace trace.old }
    requires few { length text.now ≤ MAX_INPUT }
    ensures reads { IfOk result (λ p. (number : ℕ) → reading_from Two (lines_of text.now) number (Inside trace.old)
        ≡ reading_from Two (lines_of p.1.now) (number + p.0) (Inside trace.new)) }
    ensures named { IfOk result (λ _. IsTrace trace.new) }
    ensures shorter { IfOk result (λ p. p.0 + length p.1.now ≤ length text.now) }
{
    if !is_in_lane(trace) {
        return Ok((0, text));
    }
    let (ops, rest) = trace.lanes.read_ops(trace.version, text)?;
    Ok((ops, rest))
}

/// A line between the heap line and `end`.
#[tactic(auto, unfolding(crate::specs::Said::after_inner))]
fn inner(alloc: Global, trace: &mut Trace, word: &[u8], fields: &[u8]) -> Result<(), Stop>
    requires named { IsTrace trace.old }
    requires goes_on { bytes_eq word.now (codes "end") ≡ false }
    ensures { Leaves result (Inside trace.new) (after_inner trace.old word.now (fields_of fields.now)) }
{
    if word == b"lane".as_slice() {
        lane(alloc, trace, fields)
    } else if word == b"order".as_slice() {
        order_run(trace, fields)
    } else {
        operation(trace, word, fields)
    }
}

/// The first line that is not passed over.
#[tactic(auto, unfolding(crate::specs::Said::after_first))]
fn first(alloc: Global, word: &[u8], fields: &[u8]) -> Result<ReadingStage, Cause>
    ensures { result ≡ after_first Two word.now (fields_of fields.now) }
{
    let version = version(word)?;
    Ok(ReadingStage::Inside(heap(alloc, version, fields)?))
}

/// Why a line is refused, of which its bytes are the first test.
fn refused(line: &[u8], stop: Stop) -> Stop
    ensures plain { list_all is_plain line.now ≡ true → result ≡ stop }
    ensures other { list_all is_plain line.now ≡ false → result ≡ stops.Because NotAscii }
{
    if is_plain(line) {
        stop
    } else {
        Stop::Because(Cause::NotAscii)
    }
}

impl ReadingStage {
    /// The trace so far becomes the whole trace.
    fn end(&mut self)
        ensures { (trace : Trace) → self.old ≡ Inside trace → self.new ≡ Ended trace }
    {
        *self = match mem::replace(self, ReadingStage::Before) {
            ReadingStage::Inside(trace) => ReadingStage::Ended(trace),
            other => other,
        };
    }

    /// A line with a word.
    #[tactic(auto, unfolding(crate::specs::Said::after_word, crate::specs::Said::after_inner, crate::specs::Said::after_end))]
    fn read_word(&mut self, alloc: Global, word: &[u8], fields: &[u8]) -> Result<(), Stop>
        requires { HasTrace self.old }
        ensures { Leaves result self.new (after_word Two self.old word.now (fields_of fields.now)) }
    {
        match self {
            ReadingStage::Before => *self = first(alloc, word, fields)?,
            ReadingStage::Inside(_) if word == b"end".as_slice() => {
                none(fields)?;
                self.end();
            }
            ReadingStage::Inside(trace) => inner(alloc, trace, word, fields)?,
            ReadingStage::Ended(_) => return Err(Stop::Because(Cause::UnknownOp)),
        }
        Ok(())
    }

    /// A line. A word and fields that are taken have plain bytes alone, so the bytes of such a line
    /// are not gone over again.
    #[tactic(auto, unfolding(crate::specs::Said::after_line, crate::specs::Said::after_fields))]
    pub(crate) fn read_line(&mut self, alloc: Global, line: &[u8]) -> Result<(), Stop>
        requires { HasTrace self.old }
        ensures { Leaves result self.new (after_line Two self.old line.now) }
    {
        match first_field(line) {
            Some((word, fields)) if !is_comment(word) => {
                if let Err(stop) = self.read_word(alloc, word, fields) {
                    return Err(refused(line, stop));
                }
                Ok(())
            }
            _ if is_plain(line) => Ok(()),
            _ => Err(Stop::Because(Cause::NotAscii)),
        }
    }

    /// Reads the operations of a lane that come first in a text, as long as their lines are as
    /// printed: how many lines there are, and what is left behind them.
    pub(crate) fn read_ops<'a>(&mut self, text: &'a [u8]) -> Result<(u32, &'a [u8]), AllocError>
        requires named { HasTrace self.old }
        requires few { length text.now ≤ MAX_INPUT }
        ensures reads { IfOk result (λ p. (number : ℕ) → reading_from Two (lines_of text.now) number self.old
            ≡ reading_from Two (lines_of p.1.now) (number + p.0) self.new) }
        ensures named { IfOk result (λ _. HasTrace self.new) }
        ensures shorter { IfOk result (λ p. p.0 + length p.1.now ≤ length text.now) }
    {
        match self {
            ReadingStage::Inside(trace) => lane_ops(trace, text),
            _ => Ok((0, text)),
        }
    }
}
