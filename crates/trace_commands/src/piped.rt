//! What is told of a pipeline.

ghost use Rattle.std.specs.Prelude.{◌≡◌, ◌<◌, ◌≤◌, ◌++◌, ◌∷◌, [], IfOk, OnOk, Some, codes};
ghost use Rattle.std.specs.Fmt.{decimal};
ghost use Rattle.std.specs.List.{flat_map, range_with_len};
ghost use Rattle.trace_text.specs.Text.{line};
ghost use Rattle.command_line.specs.Command.{IsPiping, piping_words};
ghost use Rattle.trace_commands.specs.Pipes.{IsPiped, sender_line};

use crate::closing::Closing;
use crate::told::Told;
use command_line::command::Piping;
use edge_io::gate::Gate;
use pipe_runner::run::{PipeRun, run_pipe};
use std::alloc::{AllocError, Global};
use std::sync::Wait;
use std::thread::Threads;
use trace_text::text::Text;

/// Writes the line of the command.
fn write_command(text: &mut Text, piping: Piping) -> Result<(), AllocError>
    ensures { OnOk result (text.new ≡ text.old ++ line (codes "pipe" ∷ piping_words piping)) }
{
    text.begin("pipe")?;
    text.number(u64::from(piping.senders))?;
    text.number(u64::from(piping.messages))?;
    text.number(piping.start)?;
    text.end_line()
}

/// Writes the line of a sender.
fn write_sender(text: &mut Text, run: &PipeRun, sender: u8) -> Result<(), AllocError>
    requires { sender < 4 }
    ensures { OnOk result (text.new ≡ text.old ++ sender_line run.now sender) }
{
    text.begin("sender")?;
    text.number(u64::from(sender))?;
    text.word("sent")?;
    text.number(run.log.sent(sender))?;
    text.word("fold")?;
    text.number(run.folds.of(sender))?;
    text.end_line()
}

/// Writes the line of what is live: nothing.
fn write_live(text: &mut Text) -> Result<(), AllocError>
    ensures { OnOk result (text.new ≡ text.old ++ line (codes "live" ∷ decimal 0 ∷ codes "words" ∷ decimal 0 ∷ [])) }
{
    text.begin("live")?;
    text.number(0)?;
    text.word("words")?;
    text.number(0)?;
    text.end_line()
}

/// Writes a line for each sender.
fn write_senders(text: &mut Text, run: &PipeRun, senders: u8) -> Result<(), AllocError>
    requires { senders ≤ 4 }
    ensures { OnOk result (text.new ≡ text.old ++ flat_map (sender_line run.now) (range_with_len 0 senders)) }
{
    for sender in 0..senders {
        write_sender(text, run, sender)?;
    }
    Ok(())
}

/// Runs a pipeline, and tells what was received of each sender.
pub fn pipe<R: Threads + Wait + Sync, G: Gate + Sync>(
    rt: &R,
    alloc: Global,
    gate: &G,
    piping: Piping,
) -> Result<Told, AllocError>
    requires { IsPiping piping }
    ensures { IfOk result (λ told. IsPiped (G.passed gate.now) piping (Some told.closing) told.text.items) }
{
    let run = run_pipe(
        rt,
        alloc,
        gate,
        piping.senders,
        u64::from(piping.messages),
        piping.start,
    )?;
    let mut text = Text::new(alloc);
    write_command(&mut text, piping)?;
    write_senders(&mut text, &run, piping.senders)?;
    write_live(&mut text)?;
    let closing = Closing::Piped(run);
    Ok(Told {
        text: text.into_bytes(),
        closing,
    })
}
