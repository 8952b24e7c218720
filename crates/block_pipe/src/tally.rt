//! A number for each sender.

ghost use Rattle.std.specs.Prelude.{ℕ, ◌≡◌, ◌≢◌, ◌<◌, length, slice_index};

/// A number for each of four senders.
#[derive(Drop)]
pub struct PerSender {
    pub(crate) counts: [u64; 4],
    ghost four: { length counts ≡ 4 },
}

impl PerSender {
    /// Nothing is counted.
    pub(crate) fn new() -> PerSender
        ensures { (k : ℕ) → slice_index result.counts k ≡ 0 }
    {
        PerSender { counts: [0; 4] }
    }

    /// The sender's number.
    pub(crate) fn of(&self, sender: u8) -> u64
        requires { sender < 4 }
        ensures { result ≡ slice_index self.now.counts sender }
    {
        self.counts[sender as usize]
    }

    /// Sets the sender's number.
    pub(crate) fn set(&mut self, sender: u8, count: u64)
        requires { sender < 4 }
        ensures here { slice_index self.new.counts sender ≡ count }
        ensures others { (k : ℕ) → k ≢ sender → slice_index self.new.counts k ≡ slice_index self.old.counts k }
    {
        self.counts[sender as usize] = count;
    }
}
