//! The code that the program ends with.

ghost use Rattle.std.specs.Prelude.{◌≡◌, ◌↔◌, ◌⊎◌};
ghost use Rattle.std.specs.Process.{exit_status};
ghost use Rattle.command_line.specs.declared.status.TheConstants.{OUT_OF_MEMORY, USAGE};

use crate::status::{OUT_OF_MEMORY, USAGE};
use std::io::ErrorKind;
use std::process::ExitCode;

/// The status where the words can't be taken, by what went wrong. Only want of memory is told as that:
/// a word that isn't UTF-8 is in no command.
pub fn status_without_words(kind: ErrorKind) -> u8
    ensures memory { (result ≡ OUT_OF_MEMORY) ↔ (kind ≡ ErrorKind.OutOfMemory) }
    ensures known { (result ≡ OUT_OF_MEMORY) ⊎ (result ≡ USAGE) }
{
    match kind {
        ErrorKind::OutOfMemory => OUT_OF_MEMORY,
        _ => USAGE,
    }
}

/// The code that the program ends with.
pub fn code_of(status: u8) -> ExitCode
    ensures { exit_status result ≡ status }
{
    ExitCode::from(status)
}
