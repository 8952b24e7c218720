//! The program on five words, the first four of which alone would be a command.
#![tactic(auto)]

use std::process::ExitCode;
use whole_program::run_program;

fn main(rt: HostRuntime) -> ExitCode {
    run_program(&rt)
}
