//! The program on four words, all of which it needs.
#![tactic(auto)]

use std::process::ExitCode;
use whole_program::run_program;

fn main(rt: HostRuntime) -> ExitCode {
    run_program(&rt)
}
