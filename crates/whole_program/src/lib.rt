//! The program as one call: from its words and standard input to standard output and its exit code.
//! Every `main` here answers just what this call answers.
#![tactic(auto)]

ghost use Rattle.std.specs.Process.{exit_status};
ghost use Rattle.std.specs.declared.io.stdio.Printer.{Printer};
ghost use Rattle.trace_commands.specs.Runs.{IsStatus};
ghost use Rattle.whole_program.specs.Ended.{IsProgramsStatus};

use command_line::exit::{code_of, status_without_words};
use edge_io::gate::NoGate;
use edge_io::real::{StdSink, StdSource};
use std::alloc::Global;
use std::process::ExitCode;
use std::rt::Env;
use std::sync::Wait;
use std::thread::Threads;
use std::{env, io};
use trace_commands::run::run;

/// The words behind the program's name.
fn words<R: Env + AllocGlobal>(rt: &R, alloc: Global) -> io::Result<Vec<String>> {
    let mut words = Vec::new(alloc);
    for word in env::args(rt)?.skip(1) {
        words.push(word)?;
    }
    Ok(words)
}

/// Runs the command that the program's words are, from standard input to standard output, and answers
/// the code that the program ends with.
pub fn run_program<R: Env + Input + Print + Threads + Wait + AllocGlobal + Sync>(rt: &R) -> ExitCode
    ensures known { IsStatus (exit_status result) }

    // The words, the edges and the heap that the program left are not seen by its caller: there are such, of which all is so that
    // `run` promises. Without words nothing is run.
    ensures told { IsProgramsStatus R.Reader (Printer R) (exit_status result) }
{
    let alloc = rt.alloc();
    let words = match words(rt, alloc) {
        Ok(words) => words,
        Err(error) => return code_of(status_without_words(error.kind())),
    };
    let mut source = StdSource::new(rt.reader());
    let mut sink = StdSink::new(io::writer(rt));
    run(rt, alloc, words.as_slice(), &mut source, &mut sink, &NoGate).code
}
