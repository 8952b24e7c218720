//! A region with its memory.
ghost use Rattle.std.specs.Prelude.{◌≡◌, ℕ, ◌+◌, ◌-◌, ◌≤◌, [], length};
ghost use Rattle.plain_words.specs.Places.{AllHere, IsLaid, laid, place_at, put};
ghost use Rattle.atomic_region.specs.Region.{opening, Final, Seen};

use crate::shared::{RegionRule, Seat, Shared};
use plain_words::{Backing, PlainWords, Room, Start};
use std::alloc::Allocator;

/// One that is dropped leaves its memory allocated: close it.
#[derive(Drop)]
pub struct Region<V, K, P: RegionRule<V, K>, A: Allocator> {
    pub shared: Shared<V, K, P>,
    pub backing: Backing<A>,
    ghost placed: { (backing.start.at ≡ shared.id.at) × (backing.words ≡ shared.id.words) },
}

impl<V, K, P: RegionRule<V, K>, A: Allocator> Region<V, K, P, A> {
    /// Shares the words of a room, as they were laid or never laid, and gives a first seat.
    pub fn open(room: Room<A>, about: &K) -> (Region<V, K, P, A>, Seat<V>)
        requires { P.holds about.now (opening room.plain.places (P.first about.now)) }
        ensures region { (result.0.shared.id.words ≡ length room.plain.places) × (result.0.shared.key ≡ about.now) }
        ensures seat { (result.1.region ≡ result.0.shared.id) × (result.1.id ≡ 0) × (result.1.me ≡ (P.first about.now, [])) }
    {
        let (plain, backing) = room.into_parts();
        let (shared, seat) = Shared::open(about, plain);
        (Region { shared, backing }, seat)
    }

    /// Where the region begins: 8 bytes behind a multiple of 16.
    #[inline(always)]
    pub fn start(&self) -> Start
        ensures { result.at ≡ self.now.shared.id.at }
    {
        self.backing.start
    }

    /// How many words it has.
    pub fn count(&self) -> usize
        ensures { result ≡ self.now.shared.id.words }
    {
        self.backing.words
    }

    /// Ends the sharing. What is out with a seat, or with whoever lifted it, stays out.
    pub fn close(self) -> Closed<A>
        ensures { (result.backing.start.at ≡ self.shared.id.at) × (result.backing.words ≡ self.shared.id.words) × Final (P.holds self.shared.key) result.plain.places }
    {
        let Region { shared, backing } = self;
        Closed {
            plain: shared.close(),
            backing,
        }
    }
}

impl<V, K, P: RegionRule<V, K>, A: Allocator> Region<V, K, P, A> {
    /// The same, and the last state has the seat's view. What the seat has out is lost: lift it before.
    pub fn close_with(self, seat: Seat<V>) -> Closed<A>
        requires { seat.region ≡ self.shared.id }
        ensures { (result.backing.start.at ≡ self.shared.id.at) × (result.backing.words ≡ self.shared.id.words) × Final (Seen (P.holds self.shared.key) seat.id seat.me.0) result.plain.places }
    {
        let Region { shared, backing } = self;
        Closed {
            plain: shared.close_with(seat),
            backing,
        }
    }
}

/// A region that no thread shares any more. One that is dropped leaves its memory allocated.
#[derive(Drop)]
pub struct Closed<A: Allocator> {
    pub plain: PlainWords,
    pub backing: Backing<A>,
    ghost whole: { (plain.at ≡ backing.start.at) × (plain.first ≡ 0) × (length plain.places ≡ backing.words) },
}

impl<A: Allocator> Closed<A> {
    /// A word that was laid and is at home.
    pub fn word(&self, word: usize) -> u64
        requires { IsLaid self.now.plain.places word }
        ensures { place_at self.now.plain.places word ≡ laid result }
    {
        self.plain.word(self.backing.start, word)
    }

    /// Words that were out come back, as they are now.
    pub fn restore(&mut self, words: PlainWords)
        requires { (words.at ≡ self.old.backing.start.at) × (words.first + length words.places ≤ self.old.backing.words) }
        ensures { (self.new.backing ≡ self.old.backing) × (self.new.plain.places ≡ put self.old.plain.places words.first words.places) }
    {
        self.plain.restore(words);
    }

    /// All the words are at home, and plain memory again.
    pub fn into_room(self) -> Room<A>
        requires { AllHere self.plain.places }
        ensures { (result.plain.places ≡ self.plain.places) × (result.backing ≡ self.backing) }
    {
        let Closed { plain, backing } = self;
        Room { plain, backing }
    }
}
