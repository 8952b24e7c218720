//! Why a call has no value.

ghost use Rattle.std.specs.Prelude.{◌≡◌};

/// Why a call has no value.
#[derive(Clone, Copy, Debug, PartialEq, Eq)]
pub enum Refusal {
    /// The handle holds no pass.
    Closed,
    /// The handle holds a pass already.
    InUse,
    /// A number of the heap is out of its range, or there are not as many handles as callers.
    BadNumbers,
    /// There is no memory for the table or the heap.
    NoMemory,
    /// A call is under way: this one isn't made, and `resume` goes on with that one.
    InCall,
    /// This call is under way: lost exchanges interrupted it, and `resume` goes on with it.
    Interrupted,
    /// No call is under way.
    Idle,
    /// The number names no block of this pass.
    NoBlock,
    /// The block has no such word.
    NoWord,
    /// There is no such shelf.
    NoShelf,
    /// The heap has no block left for this need.
    Exhausted,
    /// No block has so many words.
    TooLarge,
    /// The pass has taken all its turns.
    Spent,
    /// A block lies on the shelf.
    ShelfFull,
    /// No block lies on the shelf.
    ShelfEmpty,
    /// Another caller changed the shelf in between.
    ShelfMissed,
    /// The block's memory is out with C.
    Out,
}

impl Refusal {
    ghost use Rattle.balloc_c.specs.Codes.{code_of, word_of};

    /// Its code for C, as the number of 32 bits that stands for it.
    pub fn word(self) -> u32
        ensures { result ≡ word_of (code_of self) }
    {
        match self {
            Refusal::Closed => 0xffff_ffff,
            Refusal::InUse => 0xffff_fffe,
            Refusal::BadNumbers => 0xffff_fffd,
            Refusal::NoMemory => 0xffff_fffc,
            Refusal::InCall => 0xffff_fffb,
            Refusal::Interrupted => 2,
            Refusal::Idle => 0xffff_fffa,
            Refusal::NoBlock => 0xffff_fff9,
            Refusal::NoWord => 0xffff_fff8,
            Refusal::NoShelf => 0xffff_fff7,
            Refusal::Exhausted => 0xffff_fff6,
            Refusal::TooLarge => 0xffff_fff5,
            Refusal::Spent => 0xffff_fff4,
            Refusal::ShelfFull => 0xffff_fff3,
            Refusal::ShelfEmpty => 0xffff_fff2,
            Refusal::ShelfMissed => 0xffff_fff1,
            Refusal::Out => 0xffff_fff0,
        }
    }

    /// Its code for C.
    pub fn code(self) -> i32
        ensures { result ≡ code_of self }
    {
        match self {
            Refusal::Closed => -1,
            Refusal::InUse => -2,
            Refusal::BadNumbers => -3,
            Refusal::NoMemory => -4,
            Refusal::InCall => -5,
            Refusal::Interrupted => 2,
            Refusal::Idle => -6,
            Refusal::NoBlock => -7,
            Refusal::NoWord => -8,
            Refusal::NoShelf => -9,
            Refusal::Exhausted => -10,
            Refusal::TooLarge => -11,
            Refusal::Spent => -12,
            Refusal::ShelfFull => -13,
            Refusal::ShelfEmpty => -14,
            Refusal::ShelfMissed => -15,
            Refusal::Out => -16,
        }
    }
}
