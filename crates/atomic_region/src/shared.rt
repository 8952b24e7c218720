//! The region as threads see it, and what one of them knows and has out.
ghost use Rattle.std.specs.Prelude.{◌≡◌, ℕ, ◌+◌, ◌≤◌, List, [], ◌∷◌, length};
ghost use Rattle.plain_words.specs.Places.{Place};
ghost use Rattle.atomic_region.specs.Region.{State, Me, Step, opening, Final, Seen, rest};
ghost use Rattle.atomic_region.specs.Owned.{RegionId, region_id_coded, mine, region_owns, region_shares};

use plain_words::PlainWords;
use std::marker::{Model, PhantomData};

/// V is what a seat knows, and K what the region is told once, when it is opened.
pub trait RegionRule<V, K> {
    ghost holds: { K → State V → Type 0 };

    /// The view of the first seat.
    ghost first: { K → V };
}

/// What a step tells its caller.
pub trait Play<V> {
    /// Of the step, the seat before, the number found (at a store, the number stored) and the seat after.
    ghost then: { Step → Me V → ℕ → Me V → Type 0 };
}

/// It has no bytes: a call is told where the region begins. One that is dropped leaves its memory allocated.
#[derive(Drop)]
pub struct Shared<V, K, P: RegionRule<V, K>> {
    pub(crate) marker: PhantomData<*mut (V, K, P)>,
    pub ghost id: { RegionId } by { region_id_coded },
    pub ghost key: { K },
}

impl<V, K, P: RegionRule<V, K>> Model for Shared<V, K, P> {
    ghost also_owns = { λ w. region_owns V.row.coded.code w.id (P.holds w.key) };

    ghost also_shares = { λ w _ κ. region_shares V.row.coded.code w.id (P.holds w.key) κ };
}

/// A view of the region, and the ranges that are out with it. It has no bytes. The view of one that is dropped stays
/// among the views, and its ranges are lost.
#[derive(Drop)]
pub struct Seat<V> {
    pub(crate) marker: PhantomData<V>,
    pub ghost region: { RegionId } by { region_id_coded },
    pub ghost id: { ℕ },
    pub ghost me: { Me V },
}

impl<V> Model for Seat<V> {
    ghost also_owns = { λ s. mine s.region V.row.coded.code s.id s.me };
}

impl<V, K, P: RegionRule<V, K>> Shared<V, K, P> {
    /// Shares the words, which begin their memory, and gives a first seat.
    pub(crate) fn open(about: &K, words: PlainWords) -> (Shared<V, K, P>, Seat<V>)
        requires { (words.first ≡ 0) × P.holds about.now (opening words.places (P.first about.now)) }
        ensures region { (result.0.id.at ≡ words.at) × (result.0.id.words ≡ length words.places) × (result.0.key ≡ about.now) }
        ensures seat { (result.1.region ≡ result.0.id) × (result.1.id ≡ 0) × (result.1.me ≡ (P.first about.now, [])) }
    {
        let PlainWords { mark: _ } = words;
        (
            Shared {
                marker: PhantomData,
            },
            Seat {
                marker: PhantomData,
            },
        )
    }

    /// The words that are at home. What is out with a seat stays out.
    pub(crate) fn close(self) -> PlainWords
        ensures words { (result.at ≡ self.id.at) × (result.first ≡ 0) × (length result.places ≡ self.id.words) }
        ensures last { Final (P.holds self.key) result.places }
    {
        let Shared { marker: _ } = self;
        PlainWords { mark: PhantomData }
    }
}

impl<V, K, P: RegionRule<V, K>> Shared<V, K, P> {
    /// The same, and the last state has the seat's view.
    pub(crate) fn close_with(self, seat: Seat<V>) -> PlainWords
        requires { seat.region ≡ self.id }
        ensures words { (result.at ≡ self.id.at) × (result.first ≡ 0) × (length result.places ≡ self.id.words) }
        ensures last { Final (Seen (P.holds self.key) seat.id seat.me.0) result.places }
    {
        let Shared { marker: _ } = self;
        let Seat { marker: _ } = seat;
        PlainWords { mark: PhantomData }
    }
}

impl<V> Seat<V> {
    /// The range that the seat has first, as plain memory of whoever has the token.
    pub fn lift(&mut self) -> PlainWords
        requires { (k : ℕ) × (ps : List Place) × (self.old.me.1 ≡ (k, ps) ∷ rest self.old.me.1) }
        ensures seat { (self.new.region ≡ self.old.region) × (self.new.id ≡ self.old.id) × (self.new.me ≡ (self.old.me.0, rest self.old.me.1)) }
        ensures words { (result.at ≡ self.old.region.at) × (self.old.me.1 ≡ (result.first, result.places) ∷ rest self.old.me.1) }
    {
        PlainWords { mark: PhantomData }
    }

    /// Plain memory of the region as a range that is out with the seat.
    pub fn carry(&mut self, words: PlainWords)
        requires { (words.at ≡ self.old.region.at) × (words.first + length words.places ≤ self.old.region.words) }
        ensures { (self.new.region ≡ self.old.region) × (self.new.id ≡ self.old.id) × (self.new.me ≡ (self.old.me.0, (words.first, words.places) ∷ self.old.me.1)) }
    {
        let PlainWords { mark: _ } = words;
    }
}

unsafe impl<V> Send for Seat<V> {}

unsafe impl<V, K, P: RegionRule<V, K>> Send for Shared<V, K, P> {}

unsafe impl<V, K, P: RegionRule<V, K>> Sync for Shared<V, K, P> {}
