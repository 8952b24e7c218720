//! What the numbers behind the letter of an operation say.

ghost use Rattle.std.specs.Prelude.{◌≡◌};
ghost use Rattle.trace_text.specs.Operations.{most_of};

use crate::limits::REGISTERS;
use heap_geometry::limits::{LARGE_MOST, SHELVES};

/// What a number says.
#[derive(Clone, Copy)]
pub(crate) enum Kind {
    /// A register of a lane.
    Register,
    /// How many words a block has.
    Need,
    /// What a word holds.
    Value,
    /// A shelf of the heap.
    Shelf,
}

impl Kind {
    /// The largest number of the kind.
    #[inline(always)]
    pub(crate) fn most(self) -> u64
        ensures { result ≡ most_of self }
    {
        match self {
            Kind::Register => u64::from(REGISTERS) - 1,
            Kind::Need => u64::from(LARGE_MOST),
            Kind::Value => u64::MAX,
            Kind::Shelf => u64::from(SHELVES) - 1,
        }
    }
}

/// What one to three numbers say, in their order.
#[derive(Clone, Copy)]
pub(crate) enum Kinds {
    One(Kind),
    Two(Kind, Kind),
    Three(Kind, Kind, Kind),
}

/// One to three numbers in their order: those that are not there are 0.
#[derive(Clone, Copy)]
pub(crate) struct Numbers {
    pub(crate) first: u64,
    pub(crate) second: u64,
    pub(crate) third: u64,
}
