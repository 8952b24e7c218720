//! Runs allocation traces, which are read or made, and reports what became of their operations.
#![tactic(auto)]

use std::process::ExitCode;
use whole_program::run_program;

fn main(rt: HostRuntime) -> ExitCode {
    run_program(&rt)
}
