//! Single steps on a word, which has to be laid and at home.
ghost use Rattle.std.specs.Prelude.{◌≡◌, ◌+◌, ◌-◌, ◌%◌, ◌^◌, ◌<◌, [], ◌==◌, min, max, bit_and, bit_or, bit_xor};
ghost use prog.Atomic.{either};
ghost use Rattle.atomic_region.specs.Region.{step, Allows, Enters, Splits, Joins};

use crate::shared::{Play, RegionRule, Seat, Shared};
use atomic_table::{Join, Split, exchange};
use plain_words::Start;
use std::marker::{Brand, PhantomData};
use std::sync::atomic::Ordering::SeqCst;
use std::sync::atomic::raw;

impl<V, K, P: RegionRule<V, K>> Shared<V, K, P> {
    pub fn load<M: Play<V>>(&self, seat: &mut Seat<V>, start: Start, word: usize) -> u64
        requires { (seat.old.region ≡ self.now.id) × (start.at ≡ self.now.id.at) × (word < self.now.id.words) × Allows (P.holds self.now.key) self.now.id.words seat.old.id seat.old.me word (λ n. n) (M.then (step self.now.id.words word 0 0) seat.old.me) }
        ensures { (seat.new.region ≡ seat.old.region) × (seat.new.id ≡ seat.old.id) × M.then (step self.now.id.words word 0 0) seat.old.me result seat.new.me }
    {
        unsafe { raw::load::<Brand>(start.at.add(word), SeqCst) }
    }

    pub fn store<M: Play<V>>(&self, seat: &mut Seat<V>, start: Start, word: usize, new: u64)
        requires { (seat.old.region ≡ self.now.id) × (start.at ≡ self.now.id.at) × (word < self.now.id.words) × Allows (P.holds self.now.key) self.now.id.words seat.old.id seat.old.me word (λ n. new) (λ _. M.then (step self.now.id.words word new 0) seat.old.me new) }
        ensures { (seat.new.region ≡ seat.old.region) × (seat.new.id ≡ seat.old.id) × M.then (step self.now.id.words word new 0) seat.old.me new seat.new.me }
    {
        unsafe { raw::store::<Brand>(start.at.add(word), new, SeqCst) }
    }

    /// Returns the word as it was, which has become `new`.
    pub fn swap<M: Play<V>>(&self, seat: &mut Seat<V>, start: Start, word: usize, new: u64) -> u64
        requires { (seat.old.region ≡ self.now.id) × (start.at ≡ self.now.id.at) × (word < self.now.id.words) × Allows (P.holds self.now.key) self.now.id.words seat.old.id seat.old.me word (λ n. new) (M.then (step self.now.id.words word new 0) seat.old.me) }
        ensures { (seat.new.region ≡ seat.old.region) × (seat.new.id ≡ seat.old.id) × M.then (step self.now.id.words word new 0) seat.old.me result seat.new.me }
    {
        unsafe { raw::swap::<Brand>(start.at.add(word), new, SeqCst) }
    }

    /// Adds, and wraps at 2 ^ 64. Returns the word as it was.
    pub fn fetch_add<M: Play<V>>(
        &self,
        seat: &mut Seat<V>,
        start: Start,
        word: usize,
        k: u64,
    ) -> u64
        requires { (seat.old.region ≡ self.now.id) × (start.at ≡ self.now.id.at) × (word < self.now.id.words) × Allows (P.holds self.now.key) self.now.id.words seat.old.id seat.old.me word (λ n. (n + k) % 2 ^ 64) (M.then (step self.now.id.words word k 0) seat.old.me) }
        ensures { (seat.new.region ≡ seat.old.region) × (seat.new.id ≡ seat.old.id) × M.then (step self.now.id.words word k 0) seat.old.me result seat.new.me }
    {
        unsafe { raw::fetch_add::<Brand>(start.at.add(word), k, SeqCst) }
    }

    /// Subtracts, and wraps at 2 ^ 64. Returns the word as it was.
    pub fn fetch_sub<M: Play<V>>(
        &self,
        seat: &mut Seat<V>,
        start: Start,
        word: usize,
        k: u64,
    ) -> u64
        requires { (seat.old.region ≡ self.now.id) × (start.at ≡ self.now.id.at) × (word < self.now.id.words) × Allows (P.holds self.now.key) self.now.id.words seat.old.id seat.old.me word (λ n. (n + (2 ^ 64 - k)) % 2 ^ 64) (M.then (step self.now.id.words word k 0) seat.old.me) }
        ensures { (seat.new.region ≡ seat.old.region) × (seat.new.id ≡ seat.old.id) × M.then (step self.now.id.words word k 0) seat.old.me result seat.new.me }
    {
        unsafe { raw::fetch_sub::<Brand>(start.at.add(word), k, SeqCst) }
    }

    /// Returns the word as it was.
    pub fn fetch_and<M: Play<V>>(
        &self,
        seat: &mut Seat<V>,
        start: Start,
        word: usize,
        k: u64,
    ) -> u64
        requires { (seat.old.region ≡ self.now.id) × (start.at ≡ self.now.id.at) × (word < self.now.id.words) × Allows (P.holds self.now.key) self.now.id.words seat.old.id seat.old.me word (λ n. bit_and n k) (M.then (step self.now.id.words word k 0) seat.old.me) }
        ensures { (seat.new.region ≡ seat.old.region) × (seat.new.id ≡ seat.old.id) × M.then (step self.now.id.words word k 0) seat.old.me result seat.new.me }
    {
        unsafe { raw::fetch_and::<Brand>(start.at.add(word), k, SeqCst) }
    }

    /// Returns the word as it was.
    pub fn fetch_or<M: Play<V>>(&self, seat: &mut Seat<V>, start: Start, word: usize, k: u64) -> u64
        requires { (seat.old.region ≡ self.now.id) × (start.at ≡ self.now.id.at) × (word < self.now.id.words) × Allows (P.holds self.now.key) self.now.id.words seat.old.id seat.old.me word (λ n. bit_or n k) (M.then (step self.now.id.words word k 0) seat.old.me) }
        ensures { (seat.new.region ≡ seat.old.region) × (seat.new.id ≡ seat.old.id) × M.then (step self.now.id.words word k 0) seat.old.me result seat.new.me }
    {
        unsafe { raw::fetch_or::<Brand>(start.at.add(word), k, SeqCst) }
    }

    /// Returns the word as it was.
    pub fn fetch_xor<M: Play<V>>(
        &self,
        seat: &mut Seat<V>,
        start: Start,
        word: usize,
        k: u64,
    ) -> u64
        requires { (seat.old.region ≡ self.now.id) × (start.at ≡ self.now.id.at) × (word < self.now.id.words) × Allows (P.holds self.now.key) self.now.id.words seat.old.id seat.old.me word (λ n. bit_xor n k) (M.then (step self.now.id.words word k 0) seat.old.me) }
        ensures { (seat.new.region ≡ seat.old.region) × (seat.new.id ≡ seat.old.id) × M.then (step self.now.id.words word k 0) seat.old.me result seat.new.me }
    {
        unsafe { raw::fetch_xor::<Brand>(start.at.add(word), k, SeqCst) }
    }

    /// Returns the word as it was.
    pub fn fetch_max<M: Play<V>>(
        &self,
        seat: &mut Seat<V>,
        start: Start,
        word: usize,
        k: u64,
    ) -> u64
        requires { (seat.old.region ≡ self.now.id) × (start.at ≡ self.now.id.at) × (word < self.now.id.words) × Allows (P.holds self.now.key) self.now.id.words seat.old.id seat.old.me word (λ n. max n k) (M.then (step self.now.id.words word k 0) seat.old.me) }
        ensures { (seat.new.region ≡ seat.old.region) × (seat.new.id ≡ seat.old.id) × M.then (step self.now.id.words word k 0) seat.old.me result seat.new.me }
    {
        unsafe { raw::fetch_max::<Brand>(start.at.add(word), k, SeqCst) }
    }

    /// Returns the word as it was.
    pub fn fetch_min<M: Play<V>>(
        &self,
        seat: &mut Seat<V>,
        start: Start,
        word: usize,
        k: u64,
    ) -> u64
        requires { (seat.old.region ≡ self.now.id) × (start.at ≡ self.now.id.at) × (word < self.now.id.words) × Allows (P.holds self.now.key) self.now.id.words seat.old.id seat.old.me word (λ n. min n k) (M.then (step self.now.id.words word k 0) seat.old.me) }
        ensures { (seat.new.region ≡ seat.old.region) × (seat.new.id ≡ seat.old.id) × M.then (step self.now.id.words word k 0) seat.old.me result seat.new.me }
    {
        unsafe { raw::fetch_min::<Brand>(start.at.add(word), k, SeqCst) }
    }

    /// Returns the word as it was, which has become `new` if it was `old`.
    pub fn compare_exchange<M: Play<V>>(
        &self,
        seat: &mut Seat<V>,
        start: Start,
        word: usize,
        old: u64,
        new: u64,
    ) -> u64
        requires { (seat.old.region ≡ self.now.id) × (start.at ≡ self.now.id.at) × (word < self.now.id.words) × Allows (P.holds self.now.key) self.now.id.words seat.old.id seat.old.me word (λ n. either (n == old) new n) (M.then (step self.now.id.words word old new) seat.old.me) }
        ensures { (seat.new.region ≡ seat.old.region) × (seat.new.id ≡ seat.old.id) × M.then (step self.now.id.words word old new) seat.old.me result seat.new.me }
    {
        unsafe { exchange::<Brand>(start.at.add(word), old, new) }
    }

    /// A load that makes a new seat.
    pub fn load_new_seat<M: Play<V>>(&self, start: Start, word: usize) -> (u64, Seat<V>)
        requires { (start.at ≡ self.now.id.at) × (word < self.now.id.words) × Enters (P.holds self.now.key) self.now.id.words word (λ n w. M.then (step self.now.id.words word 0 0) (P.first self.now.key, []) n (w, [])) }
        ensures { (result.1.region ≡ self.now.id) × (result.1.me.1 ≡ []) × M.then (step self.now.id.words word 0 0) (P.first self.now.key, []) result.0 result.1.me }
    {
        let found = unsafe { raw::load::<Brand>(start.at.add(word), SeqCst) };
        (
            found,
            Seat {
                marker: PhantomData,
            },
        )
    }

    /// A seat's view is cut in two at a load of the word. What it has out stays with it.
    pub fn split_seat<M: Split<V>>(&self, seat: &mut Seat<V>, start: Start, word: usize) -> Seat<V>
        requires { (seat.old.region ≡ self.now.id) × (start.at ≡ self.now.id.at) × (word < self.now.id.words) × Splits (P.holds self.now.key) self.now.id.words word seat.old.id seat.old.me.0 (M.left seat.old.me.0) (M.right seat.old.me.0) }
        ensures old { (seat.new.region ≡ seat.old.region) × (seat.new.id ≡ seat.old.id) × (seat.new.me ≡ (M.left seat.old.me.0, seat.old.me.1)) }
        ensures new { (result.region ≡ seat.old.region) × (result.me ≡ (M.right seat.old.me.0, [])) }
    {
        unsafe { raw::load::<Brand>(start.at.add(word), SeqCst) };
        Seat {
            marker: PhantomData,
        }
    }

    /// Two views become one at a load of the word, and the other seat keeps what is left. What each has out stays with it.
    pub fn merge<M: Join<V>>(
        &self,
        seat: &mut Seat<V>,
        other: &mut Seat<V>,
        start: Start,
        word: usize,
    )
        requires { (seat.old.region ≡ self.now.id) × (other.old.region ≡ self.now.id) × (start.at ≡ self.now.id.at) × (word < self.now.id.words) × Joins (P.holds self.now.key) self.now.id.words word seat.old.id seat.old.me.0 other.old.id other.old.me.0 (M.both seat.old.me.0 other.old.me.0) M.spent }
        ensures seat { (seat.new.region ≡ seat.old.region) × (seat.new.id ≡ seat.old.id) × (seat.new.me ≡ (M.both seat.old.me.0 other.old.me.0, seat.old.me.1)) }
        ensures other { (other.new.region ≡ other.old.region) × (other.new.id ≡ other.old.id) × (other.new.me ≡ (M.spent, other.old.me.1)) }
    {
        unsafe { raw::load::<Brand>(start.at.add(word), SeqCst) };
    }

    /// The same, and the other seat is gone. What it has out is lost: lift it before.
    pub fn join_seat<M: Join<V>>(
        &self,
        seat: &mut Seat<V>,
        mut other: Seat<V>,
        start: Start,
        word: usize,
    )
        requires { (seat.old.region ≡ self.now.id) × (other.region ≡ self.now.id) × (start.at ≡ self.now.id.at) × (word < self.now.id.words) × Joins (P.holds self.now.key) self.now.id.words word seat.old.id seat.old.me.0 other.id other.me.0 (M.both seat.old.me.0 other.me.0) M.spent }
        ensures { (seat.new.region ≡ seat.old.region) × (seat.new.id ≡ seat.old.id) × (seat.new.me ≡ (M.both seat.old.me.0 other.me.0, seat.old.me.1)) }
    {
        self.merge::<M>(seat, &mut other, start, word);
    }
}
