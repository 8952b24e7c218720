//! The summary of a workload.

ghost use Rattle.std.specs.Prelude.{◌≡◌, ◌≤◌, ◌∷◌, ◌++◌, [], IfOk, OnOk, codes, decimal, length, map};
ghost use Rattle.trace_text.specs.Text.{line};
ghost use Rattle.trace_text.specs.declared.limits.TheConstants.{MAX_LANES};
ghost use Rattle.command_line.specs.Command.{workload_words};
ghost use Rattle.command_line.specs.Summaries.{counts_text, summary_with};
ghost use Rattle.command_line.specs.Tallies.{all_of};

use crate::command::{Workload, name_of};
use crate::tally::{OutcomeTally, operations, tally_lanes};
use crate::wide::write_wide;
use lane_outcomes::outcome::Outcome;
use lane_outcomes::report::write_footer;
use std::alloc::{AllocError, Global};
use trace_text::text::Text;
use trace_text::trace::Trace;

/// Writes the line of the command.
fn write_command(text: &mut Text, workload: Workload) -> Result<(), AllocError>
    ensures { OnOk result (text.new ≡ text.old ++ line (codes "make" ∷ workload_words workload)) }
{
    text.begin("make")?;
    text.word(name_of(workload.kind))?;
    text.number(u64::from(workload.size))?;
    text.number(workload.start)?;
    text.end_line()
}

/// Writes the line of the trace.
fn write_trace(alloc: Global, text: &mut Text, trace: &Trace) -> Result<(), AllocError>
    requires { length trace.now.lanes ≤ MAX_LANES }
    ensures { OnOk result (text.new ≡ text.old
        ++ line (codes "lanes" ∷ decimal (length trace.now.lanes) ∷ codes "operations" ∷ decimal (length (all_of trace.now.lanes)) ∷ [])) }
{
    text.begin("lanes")?;
    text.number(trace.lanes.len() as u64)?;
    text.word("operations")?;
    write_wide(alloc, text, operations(trace.lanes.as_slice()))?;
    text.end_line()
}

/// Writes a line of a word and a number.
fn write_count(alloc: Global, text: &mut Text, word: &str, number: u128) -> Result<(), AllocError>
    ensures { OnOk result (text.new ≡ text.old ++ line (word.now ∷ decimal number ∷ [])) }
{
    text.begin(word)?;
    write_wide(alloc, text, number)?;
    text.end_line()
}

/// Writes a line of two words, each with a number.
fn write_counts(
    alloc: Global,
    text: &mut Text,
    first: &str,
    count: u128,
    second: &str,
    more: u128,
) -> Result<(), AllocError>
    ensures { OnOk result (text.new
        ≡ text.old ++ line (first.now ∷ decimal count ∷ second.now ∷ decimal more ∷ [])) }
{
    text.begin(first)?;
    write_wide(alloc, text, count)?;
    text.word(second)?;
    write_wide(alloc, text, more)?;
    text.end_line()
}

/// Writes the lines of the counts.
fn write_tally(alloc: Global, text: &mut Text, tally: OutcomeTally) -> Result<(), AllocError>
    ensures { OnOk result (text.new ≡ text.old ++ counts_text tally) }
{
    write_counts(alloc, text, "given", tally.given, "words", tally.words)?;
    write_counts(alloc, text, "refused", tally.refused, "spent", tally.spent)?;
    write_count(alloc, text, "freed", tally.freed)?;
    write_count(alloc, text, "checked", tally.summed)
}

/// The seven lines of a workload whose lanes had these outcomes. `live` blocks were live when the heap
/// closed, with so many usable words together.
pub fn summary(
    alloc: Global,
    workload: Workload,
    trace: &Trace,
    outcomes: &[Vec<Outcome>],
    live: u32,
    words: u64,
) -> Result<Vec<u8>, AllocError>
    requires lanes { length trace.now.lanes ≤ MAX_LANES }
    requires outcomes { length outcomes.now ≤ MAX_LANES }
    ensures { IfOk result (λ text. text.items
        ≡ summary_with workload trace.now.lanes (map (λ lane. lane.items) outcomes.now) live words) }
{
    let mut text = Text::new(alloc);
    write_command(&mut text, workload)?;
    write_trace(alloc, &mut text, trace)?;
    write_tally(alloc, &mut text, tally_lanes(outcomes))?;
    write_footer(&mut text, live, words)?;
    Ok(text.into_bytes())
}
