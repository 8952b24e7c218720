//! What is left of a pipe.

ghost use Rattle.std.specs.Prelude.{◌≡◌, ◌<◌, slice_index};

use crate::tally::PerSender;

/// How many notes each sender of a closed pipe pushed, and how many of them the receiver popped. It can't
/// be made but by `Pipe::close`.
#[derive(Drop)]
pub struct PipeLog {
    pub(crate) sent: PerSender,
    pub(crate) taken: PerSender,
}

impl PipeLog {
    /// How many notes sender `k` pushed; 0 where there was no such sender.
    pub fn sent(&self, k: u8) -> u64
        requires { k < 4 }
        ensures { result ≡ slice_index self.now.sent.counts k }
    {
        self.sent.of(k)
    }

    /// How many of sender `k`'s notes the receiver popped; 0 where there was no such sender.
    pub fn taken(&self, k: u8) -> u64
        requires { k < 4 }
        ensures { result ≡ slice_index self.now.taken.counts k }
    {
        self.taken.of(k)
    }
}
