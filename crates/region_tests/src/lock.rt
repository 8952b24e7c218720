//! Taking the words, using them and giving them back.
ghost use Rattle.std.specs.Prelude.{◌≡◌, ◌≢◌, ℕ, ◌+◌, ◌^◌, ◌<◌, [], ◌∷◌, IfSome, IfNone, IfOk, Option, replicate, length};
ghost use Rattle.plain_words.specs.Places.{laids};
ghost use Rattle.region_tests.specs.Lock.{idle, holder, code, evenly};

use crate::rule::{Both, Ends, Law, Tries};
use atomic_region::{Region, Seat};
use plain_words::{PlainWords, Room};
use std::alloc::{AllocError, Global};
use std::thread::{Threads, join};

/// Words that one seat at a time has, all of one number whenever nobody has them.
pub struct Lock {
    region: Region<bool, usize, Law, Global>,
    words: usize,
    ghost counted: { (region.shared.key ≡ words) × (region.shared.id.words ≡ words + 1) × (0 < words) },
}

impl Lock {
    /// A lock over so many words of the number, and a first seat. The words are written once, by whoever takes them first:
    /// here.
    pub fn new(alloc: Global, words: usize, number: u64) -> Result<(Lock, Seat<bool>), AllocError>
        requires { (0 < words) × (words < 2 ^ 32) }
        ensures { IfOk result (λ r. (r.0.words ≡ words) × (r.1.region ≡ r.0.region.shared.id) × (r.1.me ≡ idle)) }
    {
        let mut room = Room::new(alloc, words + 1)?;
        room.lay(0, 0);
        let (region, mut seat) = Region::open(room, &words);
        let lock = Lock { region, words };
        let Some(mut held) = lock.claim(&mut seat, 0) else {
            return Err(AllocError);
        };
        held.fill(lock.region.start(), 1, words + 1, number);
        lock.release(&mut seat, held);
        Ok((lock, seat))
    }

    /// Takes the words out, where the first word is as expected.
    fn claim(&self, seat: &mut Seat<bool>, expected: u64) -> Option<PlainWords>
        requires { (seat.old.region ≡ self.now.region.shared.id) × (seat.old.me ≡ idle) × (expected ≢ 1) }
        ensures seat { seat.new.region ≡ seat.old.region }
        ensures none { IfNone result (seat.new.me ≡ idle) }
        ensures some { IfSome result (λ w. (w.at ≡ self.now.region.shared.id.at) × (w.first ≡ 1) × ((content : Option ℕ) × (code content ≡ expected) × (w.places ≡ evenly self.now.words content)) × (seat.new.me ≡ holder)) }
    {
        let start = self.region.start();
        let found = self
            .region
            .shared
            .compare_exchange::<Tries>(seat, start, 0, expected, 1);
        if found != expected {
            return None;
        }
        Some(seat.lift())
    }

    /// Gives the words back.
    fn release(&self, seat: &mut Seat<bool>, held: PlainWords)
        requires seat { (seat.old.region ≡ self.now.region.shared.id) × (seat.old.me ≡ holder) }
        requires words { (held.at ≡ self.now.region.shared.id.at) × (held.first ≡ 1) × ((m : ℕ) × (held.places ≡ laids (replicate self.now.words m))) }
        ensures { (seat.new.region ≡ seat.old.region) × (seat.new.me ≡ idle) }
    {
        seat.carry(held);
        self.region
            .shared
            .store::<Ends>(seat, self.region.start(), 0, 2);
    }

    /// Adds 1 to each word, as a slice, and returns what each was. None where another has the words.
    pub fn add_one(&self, seat: &mut Seat<bool>) -> Option<u64>
        requires { (seat.old.region ≡ self.now.region.shared.id) × (seat.old.me ≡ idle) }
        ensures { (seat.new.region ≡ seat.old.region) × (seat.new.me ≡ idle) }
    {
        let mut held = self.claim(seat, 2)?;
        let all = held.slice_mut(self.region.start(), 1, self.words);
        let was = all[0];
        all.fill(was.wrapping_add(1));
        self.release(seat, held);
        Some(was)
    }

    /// Tries so often to add 1, and answers how often it did.
    pub fn add_often(&self, mut seat: Seat<bool>, tries: u32) -> u64
        requires { (seat.region ≡ self.now.region.shared.id) × (seat.me ≡ idle) }
    {
        let mut had = 0u64;
        for _ in 0..tries {
            if self.add_one(&mut seat).is_some() {
                had = had.wrapping_add(1);
            }
        }
        had
    }

    /// Two threads try so often each to add 1. It answers how often each did.
    pub fn add_on_two<R: Threads + Sync>(&self, rt: &R, seat: Seat<bool>, tries: u32) -> (u64, u64)
        requires { (seat.region ≡ self.now.region.shared.id) × (seat.me ≡ idle) }
    {
        let mut first = seat;
        let second = self
            .region
            .shared
            .split_seat::<Both>(&mut first, self.region.start(), 0);
        join(
            rt,
            move || self.add_often(first, tries),
            move || self.add_often(second, tries),
        )
    }
}

impl Drop for Lock {
    /// The words are freed, unless somebody has them out.
    fn drop(self) {
        let Self { region, words: _ } = self;
        let closed = region.close();
        if closed.word(0) != 1 {
            drop(closed.into_room());
        }
    }
}
