//! What the program answers to a command: what it tells of a run, or where its input is refused.

ghost use Rattle.std.specs.Prelude.{ℕ, List, [], ◌≡◌, ◌≤◌, length, true, false, None, Some, IfOk, IsErrOf};
ghost use Rattle.edge_io.specs.Faults.{FaultsRose};
ghost use Rattle.trace_text.specs.declared.limits.TheConstants.{MAX_INPUT};
ghost use Rattle.trace_text.specs.Reading.{Read, reading_of};
ghost use Rattle.trace_text.specs.Traces.{IsTrace};
ghost use Rattle.trace_commands.specs.Answers.{IsAnswerTo, IsReport, refusal_line};
ghost use Rattle.command_line.specs.Command.{HasRanges, has_input};
ghost use Rattle.command_line.specs.Input.{TakesMore, TakesSome};
ghost use Rattle.trace_commands.specs.Runs.{ReadsInVain, TakesFor};

use crate::cached::cached;
use crate::closing::Closing;
use crate::made::{make, print};
use crate::piped::pipe;
use crate::stored::store;
use crate::told::{Told, counted, replay, schedule};
use command_line::command::Command;
use command_line::input::read_input;
use command_line::status::{REFUSED, REPORTED};
use command_line::stop::Stop;
use edge_io::gate::Gate;
use edge_io::source::Source;
use std::alloc::{AllocError, Global};
use std::sync::Wait;
use std::thread::Threads;
use trace_text::fault::TraceFault;
use trace_text::limits::MAX_INPUT;
use trace_text::reading::read_trace;
use trace_text::text::Text;
use trace_text::trace::Trace;

/// What is to be written, and how the run ends once it is.
#[derive(Drop)]
pub struct Answer {
    /// The status at which the text is written whole.
    pub status: u8,
    pub text: Vec<u8>,
    /// The heap, where one was run to its end.
    pub closed: Option<Closing>,
}

/// A text that is written whole at the end of a run, with the heap that was run.
fn reported(text: Vec<u8>, closed: Option<Closing>) -> Answer
    ensures { result ≡ record { status = REPORTED; text = text; closed = closed } }
{
    Answer {
        status: REPORTED,
        text,
        closed,
    }
}

/// The line that tells where a text is refused.
fn refusal(alloc: Global, number: u32, cause: u8) -> Result<Vec<u8>, AllocError>
    ensures { IfOk result (λ text. text.items ≡ refusal_line number cause) }
{
    let mut text = Text::new(alloc);
    text.begin("line")?;
    text.number(u64::from(number))?;
    text.word("cause")?;
    text.number(u64::from(cause))?;
    text.end_line()?;
    Ok(text.into_bytes())
}

/// Runs the trace of an input as the command says.
fn told_of<R: Threads + Wait + Sync, G: Gate + Sync>(
    rt: &R,
    alloc: Global,
    gate: &G,
    command: Command,
    trace: Trace,
) -> Result<Told, AllocError>
    requires input { has_input command ≡ true }
    requires ranges { HasRanges command }
    requires trace { IsTrace trace }
    ensures { IfOk result (λ told. (bytes : List ℕ) → reading_of bytes ≡ Read trace
        → IsReport (G.passed gate.now) command bytes (Some told.closing) told.text.items) }
{
    match command {
        Command::Replay => replay(rt, alloc, gate, &trace),
        Command::Schedule => schedule(alloc, gate, &trace),
        Command::Census => counted(rt, alloc, gate, &trace),
        Command::Cache(depth) => cached(rt, alloc, gate, &trace, depth),
        Command::Make(_) | Command::Print(_) | Command::Pipe(_) | Command::Store(_) => {
            unreachable!()
        }
    }
}

/// The answer to a command and the bytes of its input.
fn answer_to_input<R: Threads + Wait + Sync, G: Gate + Sync>(
    rt: &R,
    alloc: Global,
    gate: &G,
    command: Command,
    bytes: &[u8],
) -> Result<Answer, AllocError>
    requires input { has_input command ≡ true }
    requires ranges { HasRanges command }
    requires few { length bytes.now ≤ MAX_INPUT }
    ensures { IfOk result (λ answer.
        IsAnswerTo (G.passed gate.now) command bytes.now answer.status answer.closed answer.text.items) }
{
    match read_trace(alloc, bytes) {
        Ok(trace) => {
            let Told { text, closing } = told_of(rt, alloc, gate, command, trace)?;
            Ok(reported(text, Some(closing)))
        }
        Err(TraceFault::Line { number, cause }) => Ok(Answer {
            status: REFUSED,
            text: refusal(alloc, number, cause)?,
            closed: None,
        }),
        Err(TraceFault::OutOfMemory) => Err(AllocError),
    }
}

/// The answer to a command without an input.
fn answer_alone<R: Threads + Wait + Sync, G: Gate + Sync>(
    rt: &R,
    alloc: Global,
    gate: &G,
    command: Command,
) -> Result<Answer, AllocError>
    requires alone { has_input command ≡ false }
    requires ranges { HasRanges command }
    ensures { IfOk result (λ answer.
        IsAnswerTo (G.passed gate.now) command [] answer.status answer.closed answer.text.items) }
{
    match command {
        Command::Make(workload) => {
            let Told { text, closing } = make(rt, alloc, gate, workload)?;
            Ok(reported(text, Some(closing)))
        }
        Command::Print(workload) => Ok(reported(print(alloc, workload)?, None)),
        Command::Pipe(piping) => {
            let Told { text, closing } = pipe(rt, alloc, gate, piping)?;
            Ok(reported(text, Some(closing)))
        }
        Command::Store(rounds) => {
            let Told { text, closing } = store(rt, alloc, rounds)?;
            Ok(reported(text, Some(closing)))
        }
        Command::Replay | Command::Schedule | Command::Census | Command::Cache(_) => {
            unreachable!()
        }
    }
}

/// Whether the command has an input.
fn has_input(command: Command) -> bool
    ensures { result ≡ has_input command }
{
    matches!(
        command,
        Command::Replay | Command::Schedule | Command::Census | Command::Cache(_)
    )
}

/// The answer to a command, whose input is read first. Each operation of a trace that is run passes the
/// gate before it begins.
pub fn answer_to<R: Threads + Wait + Sync, S: Source, G: Gate + Sync>(
    rt: &R,
    alloc: Global,
    command: Command,
    source: &mut S,
    gate: &G,
) -> Result<Answer, Stop>
    requires { HasRanges command }
    ensures answer { IfOk result (λ answer. (bytes : List ℕ) × TakesFor S.left S.gave source.old source.new (has_input command) bytes
        × IsAnswerTo (G.passed gate.now) command bytes answer.status answer.closed answer.text.items) }
    ensures many { IsErrOf result Stop.TooMany → (has_input command ≡ true) × TakesMore S.left S.gave MAX_INPUT source.old source.new }
    ensures fault { IsErrOf result Stop.Fault → (has_input command ≡ true) × FaultsRose (S.faults source.old) (S.faults source.new)
        × TakesSome S.left S.gave MAX_INPUT source.old source.new }
    ensures memory { IsErrOf result Stop.OutOfMemory → ReadsInVain S.left S.gave source.old source.new }
    ensures unread { has_input command ≡ false → source.new ≡ source.old }
{
    let made = if has_input(command) {
        let bytes = read_input(alloc, source, MAX_INPUT)?;
        answer_to_input(rt, alloc, gate, command, bytes.as_slice())
    } else {
        answer_alone(rt, alloc, gate, command)
    };
    made.map_err(|_| Stop::OutOfMemory)
}
