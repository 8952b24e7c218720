//! The text of a report.

ghost use Rattle.std.specs.Prelude.{◌≡◌, ◌∷◌, ◌++◌, [], length, map, codes, decimal, IfOk, OnOk};
ghost use Rattle.trace_text.specs.Text.{heap_fields, line};
ghost use Rattle.lane_outcomes.specs.Report.{outcome_fields, lane_report, lanes_report, report_with};

use crate::outcome::Outcome;
use std::alloc::{AllocError, Global};
use trace_text::printing::write_heap;
use trace_text::text::Text;
use trace_text::trace::Trace;

/// How many lanes the trace has.
fn lane_count(trace: &Trace) -> u64
    ensures { result ≡ length trace.now.lanes }
{
    trace.lanes.as_slice().len() as u64
}

/// Writes the line of the heap and the number of lanes.
fn write_header(text: &mut Text, trace: &Trace) -> Result<(), AllocError>
    ensures { OnOk result (text.new
        ≡ text.old ++ line (heap_fields trace.now ++ codes "lanes" ∷ decimal (length trace.now.lanes) ∷ [])) }
{
    write_heap(text, trace)?;
    text.word("lanes")?;
    text.number(lane_count(trace))?;
    text.end_line()
}

/// Writes the line of an outcome.
fn write_outcome(text: &mut Text, outcome: Outcome) -> Result<(), AllocError>
    ensures { OnOk result (text.new ≡ text.old ++ line (outcome_fields outcome)) }
{
    match outcome {
        Outcome::Given { words, place: _ } => text.line_with("given", u64::from(words)),
        Outcome::Refused => text.line("refused"),
        Outcome::Spent => text.line("spent"),
        Outcome::Freed => text.line("freed"),
        Outcome::Filled => text.line("filled"),
        Outcome::Sum(total) => text.line_with("sum", total),
        Outcome::Put => text.line("put"),
        Outcome::ShelfFull => text.line("shelf full"),
        Outcome::Took { words, .. } => text.line_with("took", u64::from(words)),
        Outcome::ShelfEmpty => text.line("shelf empty"),
        Outcome::Kept { words, .. } => text.line_with("kept", u64::from(words)),
        Outcome::Resized { words, .. } => text.line_with("resized", u64::from(words)),
        Outcome::Skipped => text.line("skipped"),
    }
}

/// Writes the lines of a lane.
fn write_lane(text: &mut Text, lane: usize, outcomes: &[Outcome]) -> Result<(), AllocError>
    ensures { OnOk result (text.new ≡ text.old ++ lane_report lane outcomes.now) }
{
    text.line_with("lane", lane as u64)?;
    for outcome in outcomes {
        write_outcome(text, *outcome)?;
    }
    Ok(())
}

/// Writes the lines of the lanes, the first of which has the number 0.
fn write_lanes(text: &mut Text, outcomes: &[Vec<Outcome>]) -> Result<(), AllocError>
    ensures { OnOk result (text.new ≡ text.old ++ lanes_report 0 (map (λ lane. lane.items) outcomes.now)) }
{
    for (lane, outcomes) in outcomes.iter().enumerate() {
        write_lane(text, lane, outcomes)?;
    }
    Ok(())
}

/// Writes the last line: so many blocks are live, with so many usable words together.
pub fn write_footer(text: &mut Text, live: u32, words: u64) -> Result<(), AllocError>
    ensures { OnOk result (text.new
        ≡ text.old ++ line (codes "live" ∷ decimal live ∷ codes "words" ∷ decimal words ∷ [])) }
{
    text.begin("live")?;
    text.number(u64::from(live))?;
    text.word("words")?;
    text.number(words)?;
    text.end_line()
}

/// The report of a trace whose lanes had these outcomes, each lane's in the order of its operations.
/// `live` blocks were live when the heap closed, with so many usable words together.
pub fn report(
    alloc: Global,
    trace: &Trace,
    outcomes: &[Vec<Outcome>],
    live: u32,
    words: u64,
) -> Result<Vec<u8>, AllocError>
    ensures { IfOk result (λ text. text.items
        ≡ report_with trace.now (map (λ lane. lane.items) outcomes.now) live words) }
{
    let mut text = Text::new(alloc);
    write_header(&mut text, trace)?;
    write_lanes(&mut text, outcomes)?;
    write_footer(&mut text, live, words)?;
    Ok(text.into_bytes())
}
