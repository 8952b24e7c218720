//! The trait of a block in hand.

ghost use Rattle.std.specs.Prelude.{ℕ, ◌≡◌};
ghost use Rattle.heap_geometry.specs.declared.need.Need.{Need};
ghost use Rattle.heap_geometry.specs.Need.{usable_words};

use heap_geometry::need::Need;

/// A block that a caller holds.
pub trait Token {
    /// The arena word of its prefix.
    ghost place_of: { Self → ℕ };

    /// What it serves.
    ghost need_of: { Self → Need };

    /// Its usable words.
    fn words(&self) -> u32
        ensures { result ≡ usable_words (need_of self.now) };

    /// What it serves.
    fn need(&self) -> Need
        ensures { result ≡ need_of self.now };

    /// The arena word of its prefix.
    fn place(&self) -> u32
        ensures { result ≡ place_of self.now };
}
