//! A number for each sender.

ghost use Rattle.std.specs.Prelude.{ℕ, ◌≡◌, ◌≢◌, ◌<◌, length, slice_index};

/// A number for each of four senders.
#[derive(Drop)]
pub struct Row {
    pub(crate) numbers: [u64; 4],
    ghost four: { length numbers ≡ 4 },
}

impl Row {
    /// Zeros.
    pub(crate) fn new() -> Row
        ensures { (k : ℕ) → slice_index result.numbers k ≡ 0 }
    {
        Row { numbers: [0; 4] }
    }

    /// The sender's number.
    pub fn of(&self, sender: u8) -> u64
        requires { sender < 4 }
        ensures { result ≡ slice_index self.now.numbers sender }
    {
        self.numbers[sender as usize]
    }

    /// Sets the sender's number.
    pub(crate) fn set(&mut self, sender: u8, number: u64)
        requires { sender < 4 }
        ensures here { slice_index self.new.numbers sender ≡ number }
        ensures others { (k : ℕ) → k ≢ sender → slice_index self.new.numbers k ≡ slice_index self.old.numbers k }
    {
        self.numbers[sender as usize] = number;
    }
}
