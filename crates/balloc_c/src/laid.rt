//! What a pass gives again, by its class.

ghost use Rattle.std.specs.Prelude.{ℕ, ◌≡◌, ◌<◌, ◌+◌, ◌%◌, ◌^◌, length, slice_index};
ghost use Rattle.heap_geometry.specs.declared.limits.TheConstants.{CLASSES};

/// For each class the number under which a block is given next of those that the pass keeps, and for how many more there is
/// room.
#[derive(Drop)]
pub struct Laid {
    firsts: [u64; 11],
    rooms: [u8; 11],
    ghost firsts_of_all: { length firsts ≡ 11 },
    ghost rooms_of_all: { length rooms ≡ 11 },
}

impl Laid {
    /// Nothing, and room for so many of each class.
    pub fn new(none: u64, depth: u8) -> Laid
        ensures { (class : ℕ) → class < CLASSES → slice_index result.rooms class ≡ depth }
    {
        Laid {
            firsts: [none; 11],
            rooms: [depth; 11],
        }
    }

    /// The number under which a block is given next.
    #[inline(always)]
    pub fn first(&self, class: u8) -> u64
        requires { class < CLASSES }
        ensures { result ≡ slice_index self.now.firsts class }
    {
        self.firsts[class as usize]
    }

    /// For how many more there is room.
    #[inline(always)]
    pub fn room(&self, class: u8) -> u8
        requires { class < CLASSES }
        ensures { result ≡ slice_index self.now.rooms class }
    {
        self.rooms[class as usize]
    }

    /// One more is kept, which is given next under this number.
    #[inline(always)]
    pub fn lay(&mut self, class: u8, number: u64)
        requires class { class < CLASSES }
        requires some { 0 < slice_index self.old.rooms class }
        ensures first { slice_index self.new.firsts class ≡ number }
        ensures room { slice_index self.new.rooms class + 1 ≡ slice_index self.old.rooms class }
    {
        self.firsts[class as usize] = number;
        self.rooms[class as usize] -= 1;
    }

    /// The one that was given next is gone, and another one is, under this number.
    #[inline(always)]
    pub fn lift(&mut self, class: u8, number: u64)
        requires class { class < CLASSES }
        ensures first { slice_index self.new.firsts class ≡ number }
        ensures room { slice_index self.new.rooms class ≡ (slice_index self.old.rooms class + 1) % 2 ^ 8 }
    {
        self.firsts[class as usize] = number;
        self.rooms[class as usize] = self.rooms[class as usize].wrapping_add(1);
    }
}
