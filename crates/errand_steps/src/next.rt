//! What follows a step.

ghost use Rattle.std.specs.Prelude.{◌≡◌};
ghost use Rattle.errand_steps.specs.declared.next.Next.TheVariants.{At, End};
ghost use Rattle.errand_steps.specs.declared.point.Point.TheVariants.{Block, Stack, Desc, Partial};

use crate::continuation::Continuation;
use crate::point::Point;
use crate::reply::Reply;
use step_parts::hazard::held::Held;
use step_parts::hazard::point::DescPoint;
use step_parts::partial::point::PartialPoint;
use step_parts::stack::point::StackPoint;
use step_parts::superblock::point::BlockPoint;
use word_table::seat::Seat;

/// What follows a step, as far as it depends on the point alone.
#[derive(Clone, Copy)]
pub enum Next {
    /// The caller stands at this point.
    At {
        point: Point,
    },
    /// The call ends.
    End {
        reply: Reply,
    },
    /// An allocation begins a turn, where its caller has one left.
    Turn {
        seat: Seat,
        need: u32,
    },
    /// The descriptor is retired, then the caller goes on.
    Retire {
        seat: Seat,
        desc: u16,
        continuation: Continuation,
    },
    /// A retired descriptor that none of the hazard words named is pushed.
    Pick {
        seat: Seat,
        held: Held,
        continuation: Continuation,
    },
    /// The descriptor is available again and no longer retired, and the caller goes on.
    Unlist {
        seat: Seat,
        desc: u16,
        continuation: Continuation,
    },
}

impl Next {
    /// The caller stands in a superblock.
    pub fn block(at: BlockPoint, continuation: Continuation) -> Next
        ensures { result ≡ At (Block at continuation) }
    {
        Next::At {
            point: Point::Block { at, continuation },
        }
    }

    /// The caller stands at a stack.
    pub fn stack(at: StackPoint, continuation: Continuation) -> Next
        ensures { result ≡ At (Stack at continuation) }
    {
        Next::At {
            point: Point::Stack { at, continuation },
        }
    }

    /// The caller stands at the descriptors or the hazard words.
    pub fn desc(at: DescPoint, continuation: Continuation) -> Next
        ensures { result ≡ At (Desc at continuation) }
    {
        Next::At {
            point: Point::Desc { at, continuation },
        }
    }

    /// The caller stands at a partial superblock.
    pub fn partial(at: PartialPoint, continuation: Continuation) -> Next
        ensures { result ≡ At (Partial at continuation) }
    {
        Next::At {
            point: Point::Partial { at, continuation },
        }
    }

    /// The call ends.
    pub fn end(reply: Reply) -> Next
        ensures { result ≡ End reply }
    {
        Next::End { reply }
    }
}
