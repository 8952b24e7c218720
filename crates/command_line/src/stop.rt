//! Why a run ends before it has an answer.

ghost use Rattle.std.specs.Prelude.{◌≡◌};
ghost use Rattle.command_line.specs.Statuses.{stop_status};

use crate::status::{OUT_OF_MEMORY, READ_FAULT, TOO_MANY};

/// Why there is no answer.
#[derive(Clone, Copy)]
pub enum Stop {
    /// The source failed.
    Fault,
    /// More bytes were taken than may be.
    TooMany,
    OutOfMemory,
}

impl Stop {
    /// The status that the program then ends with.
    pub fn status(self) -> u8
        ensures { result ≡ stop_status self }
    {
        match self {
            Stop::Fault => READ_FAULT,
            Stop::TooMany => TOO_MANY,
            Stop::OutOfMemory => OUT_OF_MEMORY,
        }
    }
}
