//! The points of all parts.

use crate::continuation::Continuation;
use step_parts::hazard::point::DescPoint;
use step_parts::large::point::LargePoint;
use step_parts::partial::point::PartialPoint;
use step_parts::stack::point::StackPoint;
use step_parts::superblock::point::BlockPoint;

/// Where a caller stands: in no call, or at a point of a part, with what follows the part.
#[derive(Clone, Copy)]
pub enum Point {
    /// In no call.
    Idle,
    /// In a superblock.
    Block {
        at: BlockPoint,
        continuation: Continuation,
    },
    /// At a stack of frames or of partial superblocks.
    Stack {
        at: StackPoint,
        continuation: Continuation,
    },
    /// At the descriptors or the hazard words.
    Desc {
        at: DescPoint,
        continuation: Continuation,
    },
    /// At a partial superblock.
    Partial {
        at: PartialPoint,
        continuation: Continuation,
    },
    /// At a large block, a usable word or a shelf.
    Large {
        at: LargePoint,
        continuation: Continuation,
    },
}

/// Pieces of the arena that lie side by side. What is laid at once is a piece: a frame, or a unit. Frames are
/// numbered from 0, and units behind them.
#[derive(Clone, Copy)]
pub struct Pieces {
    pub first: u32,
    pub count: u32,
}
