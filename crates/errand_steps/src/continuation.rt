//! What a caller goes on with when it leaves a part.

ghost use Rattle.std.specs.Prelude.{◌≡◌};
ghost use Rattle.errand_steps.specs.Points.{asked};

/// What a caller goes on with when it leaves the part that it is in.
///
/// `need` is the usable words that the allocation asked for. A descriptor stands for its superblock.
#[derive(Clone, Copy)]
pub enum Continuation {
    /// An allocation.
    Alloc {
        need: u32,
    },
    /// An allocation that pops a frame for this new descriptor.
    TakeFrame {
        need: u32,
        desc: u16,
    },
    /// An allocation that hands out this block, as soon as its superblock stands in a slot. The superblock
    /// is one of the point's seat.
    GiveBlock {
        need: u32,
        desc: u16,
        frame: u16,
        index: u16,
    },
    /// An allocation whose new superblock is not needed, and whose frame is pushed: its descriptor is
    /// retired then.
    Discard {
        need: u32,
        desc: u16,
    },
    /// An allocation that begins a turn after a retirement.
    Turn {
        need: u32,
    },
    /// An allocation that looks for a partial superblock again after a retirement.
    Look {
        need: u32,
    },
    /// An allocation that ends as refused after a retirement.
    Refuse,
    /// A free.
    Free,
    /// A free that made this superblock empty, and pushes its frame: it is removed from its slot then.
    Remove {
        desc: u16,
        heap: u8,
    },
    /// A free that looks through the list of partial superblocks for an empty one, and has popped
    /// none yet.
    Clear,
    /// A free that does so, and has popped this one, which is not empty.
    ClearSecond {
        first: u16,
    },
    /// A free that retires this descriptor and ends.
    Retire {
        desc: u16,
    },
    /// A free that pushes this one on the list and ends.
    PushFirst {
        first: u16,
    },
    /// A free that clears its hazard word, where it stored it, and ends.
    Finish {
        stored: bool,
    },
    /// A free that ends.
    EndFree,
    /// A call that ends with the part.
    Nothing,
}

/// The usable words that an allocation asked for; 0 for other calls.
pub fn asked(continuation: Continuation) -> u32
    ensures { result ≡ asked continuation }
{
    match continuation {
        Continuation::Alloc { need }
        | Continuation::TakeFrame { need, .. }
        | Continuation::GiveBlock { need, .. }
        | Continuation::Discard { need, .. }
        | Continuation::Turn { need }
        | Continuation::Look { need } => need,
        Continuation::Refuse
        | Continuation::Free
        | Continuation::Remove { .. }
        | Continuation::Clear
        | Continuation::ClearSecond { .. }
        | Continuation::Retire { .. }
        | Continuation::PushFirst { .. }
        | Continuation::Finish { .. }
        | Continuation::EndFree
        | Continuation::Nothing => 0,
    }
}
