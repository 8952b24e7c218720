//! Why a text was not read.

ghost use Rattle.std.specs.Prelude.{◌≡◌};
ghost use Rattle.trace_text.specs.Causes.{code_of};
ghost use Rattle.trace_text.specs.declared.fault.Stop.TheVariants as stops;

use std::alloc::AllocError;
use thiserror::Error;

/// Why a text was not read.
#[derive(Clone, Copy, Debug, PartialEq, Eq, Error)]
pub enum TraceFault {
    /// Memory for the trace was not found.
    #[error("out of memory")]
    OutOfMemory,
    /// The text is none of the language. `number` is the line's, from 1 on, and `cause` the number
    /// of a `Cause`.
    #[error("line {number} cause {cause}")]
    Line { number: u32, cause: u8 },
}

/// Why a line is refused. The tests of a line are made in the order of these causes, but for
/// `BadGeometry`, which stands in place of `OutOfRange` in the heap line.
#[derive(Clone, Copy)]
pub enum Cause {
    /// A byte is neither a tab nor one that can be printed.
    NotAscii,
    /// No heap line comes first.
    NoHeapLine,
    /// A number of the heap line is out of its range.
    BadGeometry,
    /// The first field is no word of the language, or not allowed here.
    UnknownOp,
    /// Too few fields, or too many.
    WrongFields,
    /// A field that should be a number is none.
    BadNumber,
    /// A number is out of its range.
    OutOfRange,
    /// A line `lane` after the most lanes.
    TooManyLanes,
    /// The text has no line `end`.
    NoEnd,
}

impl Cause {
    /// The number of the cause, as reports of refused texts give it.
    pub fn code(self) -> u8
        ensures { result ≡ code_of self }
    {
        match self {
            Cause::NotAscii => 1,
            Cause::NoHeapLine => 2,
            Cause::BadGeometry => 3,
            Cause::UnknownOp => 4,
            Cause::WrongFields => 5,
            Cause::BadNumber => 6,
            Cause::OutOfRange => 7,
            Cause::TooManyLanes => 8,
            Cause::NoEnd => 9,
        }
    }
}

/// Why the reader stops at a line.
#[derive(Clone, Copy)]
pub(crate) enum Stop {
    OutOfMemory,
    Because(Cause),
}

impl From<Cause> for Stop {
    ghost from_gives = { λ cause e. e ≡ stops.Because cause };

    fn from(cause: Cause) -> Stop {
        Stop::Because(cause)
    }
}

impl From<AllocError> for Stop {
    ghost from_gives = { λ _ e. e ≡ stops.OutOfMemory };

    fn from(_failed: AllocError) -> Stop {
        Stop::OutOfMemory
    }
}
