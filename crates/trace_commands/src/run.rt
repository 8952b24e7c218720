//! The top call: from the words and the input to the answer and the status.

ghost use Rattle.std.specs.Prelude.{◌≡◌, ◌≢◌, ◌⊎◌, None, false, map, string_bytes};
ghost use Rattle.std.specs.Process.{exit_status};
ghost use Rattle.edge_io.specs.Faults.{FaultsRose};
ghost use Rattle.trace_commands.specs.Answers.{IsRefusal, IsReport};
ghost use Rattle.command_line.specs.Command.{IsCommand, IsCommandLine, has_input};
ghost use Rattle.command_line.specs.Input.{TakesMore, TakesSome};
ghost use Rattle.command_line.specs.declared.command.Command.{Command};
ghost use Rattle.command_line.specs.declared.status.TheConstants.{REPORTED, REFUSED, READ_FAULT, TOO_MANY};
ghost use Rattle.trace_commands.specs.Runs.{AsksInput, IsAnswer, IsStatus, ReadsInVain, Writes, WritesPart};

use crate::answer::{Answer, answer_to};
use crate::closing::Closing;
use command_line::exit::code_of;
use command_line::output::write_text;
use command_line::parsing::{NoCommand, read_words};
use command_line::status::{OUT_OF_MEMORY, USAGE, WRITE_FAULT};
use edge_io::gate::Gate;
use edge_io::sink::Sink;
use edge_io::source::Source;
use std::alloc::Global;
use std::process::ExitCode;
use std::sync::Wait;
use std::thread::Threads;
use trace_text::limits::MAX_INPUT;

/// How a run ended.
#[derive(Drop)]
pub struct Ended {
    /// The status that the program ends with.
    pub status: u8,
    /// The code that says it, for `main` to answer.
    pub code: ExitCode,
    /// The heap, where one was run to its end.
    pub closed: Option<Closing>,
}

/// An end at this status.
fn ended_at(status: u8, closed: Option<Closing>) -> Ended
    ensures status { result.status ≡ status }
    ensures code { exit_status result.code ≡ status }
    ensures closed { result.closed ≡ closed }
{
    Ended {
        status,
        code: code_of(status),
        closed,
    }
}

/// An end before a heap was run.
fn ended_early(status: u8) -> Ended
    ensures status { result.status ≡ status }
    ensures code { exit_status result.code ≡ status }
    ensures closed { result.closed ≡ None }
{
    ended_at(status, None)
}

/// Runs the command that the words are, from the source to the sink.
pub fn run<R: Threads + Wait + Sync, S: Source, K: Sink, G: Gate + Sync>(
    rt: &R,
    alloc: Global,
    words: &[String],
    source: &mut S,
    sink: &mut K,
    gate: &G,
) -> Ended
    ensures known { IsStatus result.status }
    ensures code { exit_status result.code ≡ result.status }

    // Where the words are no command, neither edge is called; a command without an input doesn't call the source.
    ensures usage { result.status ≡ USAGE → ¬ IsCommand (map string_bytes words.now) }
    ensures unknown { (¬ IsCommand (map string_bytes words.now))
        → (result.status ≡ USAGE) ⊎ (result.status ≡ OUT_OF_MEMORY) }
    ensures untouched { (¬ IsCommand (map string_bytes words.now)) → (source.new ≡ source.old) × (sink.new ≡ sink.old) }
    ensures unread { (command : Command) → IsCommandLine command (map string_bytes words.now) → has_input command ≡ false
        → source.new ≡ source.old }

    // But for the text of a command and a refusal, of which a part may be written, the sink is not called and no heap is left.
    ensures silent { result.status ≢ REPORTED → result.status ≢ REFUSED → result.status ≢ WRITE_FAULT
        → (sink.new ≡ sink.old) × (result.closed ≡ None) }

    // Each read is offered 4,096 bytes, at most `MAX_INPUT + 1` reads are made, and none after the last one that is told.
    ensures read_fault { result.status ≡ READ_FAULT → AsksInput (map string_bytes words.now)
        × FaultsRose (S.faults source.old) (S.faults source.new) × TakesSome S.left S.gave MAX_INPUT source.old source.new }
    ensures too_many { result.status ≡ TOO_MANY → AsksInput (map string_bytes words.now)
        × TakesMore S.left S.gave MAX_INPUT source.old source.new }
    ensures in_vain { result.status ≡ OUT_OF_MEMORY → ReadsInVain S.left S.gave source.old source.new }

    // Each write is offered all that is left of the text, and a write that fails is the last one.
    ensures refused { result.status ≡ REFUSED
        → Writes (map string_bytes words.now) S.left S.gave source.old source.new K.holds K.wrote sink.old sink.new IsRefusal result.closed }
    ensures write_fault { result.status ≡ WRITE_FAULT → FaultsRose (K.faults sink.old) (K.faults sink.new)
        × (WritesPart (map string_bytes words.now) S.left S.gave source.old source.new K.holds K.wrote sink.old sink.new
        (IsReport (G.passed gate.now)) result.closed
        ⊎ WritesPart (map string_bytes words.now) S.left S.gave source.old source.new K.holds K.wrote sink.old sink.new
        IsRefusal result.closed) }

    // The headline: the text is the one that is defined of the trace, which is read or made, and of the closed heap's history.
    ensures reported { result.status ≡ REPORTED
        → Writes (map string_bytes words.now) S.left S.gave source.old source.new K.holds K.wrote sink.old sink.new
        (IsReport (G.passed gate.now)) result.closed }

    // Where the words are a command and no edge failed, the run gives its answer.
    ensures complete { (command : Command) → IsCommandLine command (map string_bytes words.now)
        → (¬ FaultsRose (S.faults source.old) (S.faults source.new)) → (¬ FaultsRose (K.faults sink.old) (K.faults sink.new))
        → IsAnswer (has_input command) result.status }
{
    let command = match read_words(alloc, words) {
        Ok(command) => command,
        Err(NoCommand::Usage) => return ended_early(USAGE),
        Err(NoCommand::OutOfMemory) => return ended_early(OUT_OF_MEMORY),
    };
    let answer = match answer_to(rt, alloc, command, source, gate) {
        Ok(answer) => answer,
        Err(stop) => return ended_early(stop.status()),
    };
    let Answer {
        status,
        text,
        closed,
    } = answer;
    match write_text(sink, text.as_slice()) {
        Ok(()) => ended_at(status, closed),
        Err(_) => ended_at(WRITE_FAULT, closed),
    }
}
