//! A pipe.

ghost use Rattle.std.specs.Prelude.{◌≡◌, ◌≤◌, ◌*◌};
ghost use Rattle.crossbeam_queue.specs.Passes.{ruled_capacity};

use crate::rule::Queue;

/// The queue of notes between up to four senders, each with a number of shelves of its own, and one
/// receiver. Threads share it by reference, each with an end of its own.
#[derive(Drop)]
pub struct Pipe {
    pub(crate) queue: Queue,
    pub(crate) senders: u8,
    pub(crate) shelves: u8,
    ghost sized: { (1 ≤ senders) × (senders ≤ 4) × (1 ≤ shelves) × (senders * shelves ≤ 64) },
    ghost room: { ruled_capacity queue ≡ senders * shelves },
}
