//! A store beside the list and the records that it is to hold by the answers of its calls.

ghost use Rattle.std.specs.Prelude.{ℕ, ◌≡◌, ◌≢◌, ◌≤◌, length};
ghost use Rattle.typed_store.specs.declared.store.Pending.TheVariants as pending;

use crate::stores::plain::Plain;
use crate::stores::script::Request;
use crate::stores::sums::{Sums, count};
use live_heap::heap::Heap;
use std::alloc::{AllocError, Global};
use typed_store::store::{Pending, Popped, Store, Stored};

/// How many tries a call has: one, so that it is interrupted as often as it can be.
const TRIES: u32 = 1;

/// How often an interrupted call is resumed at the end.
const RESUMES: u32 = 1_000;

/// The most records of a store.
const MOST_RECORDS: u32 = 1_000_000;

/// A store, and what it is to hold.
#[derive(Drop)]
pub struct Twin {
    pub(crate) store: Store,
    /// What the store waits for.
    pub(crate) waits: Pending,
    /// The words of the record that it waits for.
    pub(crate) words: Vec<u64>,
    plain: Plain,
    sums: Sums,
}

impl Twin {
    ghost use Rattle.live_heap.specs.Heaps.{HeapFields};
    ghost use Rattle.typed_store.specs.Stores.{IsReady, LeavesStore, LeavesPopped};
    ghost use Rattle.heap_scripts.specs.stores.Twins.{IsTwin, Waits};

    /// A store that holds nothing.
    pub(crate) fn new(alloc: Global, store: Store) -> Twin
        ensures store { result.store ≡ store }
        ensures waits { result.waits ≡ pending.Nothing }
    {
        Twin {
            store,
            waits: Pending::Nothing,
            words: Vec::new(alloc),
            plain: Plain::new(alloc),
            sums: Sums::new(),
        }
    }

    /// How many records there are to be.
    pub(crate) fn records(&self) -> u32 {
        self.plain.records().min(MOST_RECORDS as usize) as u32
    }

    /// What its calls came to.
    pub(crate) fn sums(&self) -> Sums {
        self.sums
    }

    /// Goes on with the call that was interrupted, or makes this one.
    pub(crate) fn call(
        &mut self,
        alloc: Global,
        heap: &Heap,
        request: Request,
    ) -> Result<(), AllocError>
        requires { IsTwin heap.now self.old }
        ensures { IsTwin heap.now self.new }
    {
        count(&mut self.sums.calls);
        if self.waits != Pending::Nothing {
            return self.resume(heap);
        }
        match request {
            Request::Push { key, value } => self.push(heap, key, value),
            Request::Pop => {
                self.pop(heap);
                Ok(())
            }
            Request::Remove { key } => {
                self.remove(heap, key);
                Ok(())
            }
            Request::Get { key } => {
                self.get(heap, key);
                Ok(())
            }
            Request::List => self.list(alloc, heap),
            Request::Add { words } => self.add(alloc, heap, words),
            Request::Record { number } => self.record(alloc, heap, number),
        }
    }

    /// Ends the call that is under way, and compares all that the store holds.
    pub(crate) fn finish(&mut self, alloc: Global, heap: &Heap) -> Result<(), AllocError>
        requires { IsTwin heap.now self.old }
        ensures { IsTwin heap.now self.new }
    {
        for _resumed in 0..RESUMES {
            if self.waits != Pending::Nothing {
                self.resume(heap)?;
            }
        }
        if self.waits != Pending::Nothing {
            count(&mut self.sums.differed);
            return Ok(());
        }
        self.list(alloc, heap)?;
        self.compare_records(alloc, heap)
    }

    /// Each record, and that there is none behind them.
    fn compare_records(&mut self, alloc: Global, heap: &Heap) -> Result<(), AllocError>
        requires twin { IsTwin heap.now self.old }
        requires idle { self.old.waits ≡ pending.Nothing }
        ensures { IsTwin heap.now self.new }
    {
        let many = self.records();
        let same = self.store.records() == many;
        self.sums.compare(same);
        for number in 0..many {
            self.record(alloc, heap, number)?;
        }
        self.record(alloc, heap, many)
    }

    fn resume(&mut self, heap: &Heap) -> Result<(), AllocError>
        requires twin { IsTwin heap.now self.old }
        requires waits { self.old.waits ≢ pending.Nothing }
        ensures { IsTwin heap.now self.new }
    {
        let waits = self.waits;
        let stored = self.store.resume(heap, self.words.as_slice(), TRIES);
        if stored != Stored::Busy {
            count(&mut self.sums.resumed);
        }
        self.note(heap, stored, waits)
    }

    fn push(&mut self, heap: &Heap, key: u64, value: u64) -> Result<(), AllocError>
        requires twin { IsTwin heap.now self.old }
        requires idle { self.old.waits ≡ pending.Nothing }
        ensures { IsTwin heap.now self.new }
    {
        let stored = self.store.push_front(heap, key, value, TRIES)?;
        self.note(heap, stored, Pending::Pair { key, value })
    }

    fn add(&mut self, alloc: Global, heap: &Heap, many: u32) -> Result<(), AllocError>
        requires twin { IsTwin heap.now self.old }
        requires idle { self.old.waits ≡ pending.Nothing }
        ensures { IsTwin heap.now self.new }
    {
        let words = words_of(alloc, many, self.sums.calls)?;
        if self.store.records() >= MOST_RECORDS || words.len() > 131_070 {
            return Ok(());
        }
        self.words = words;
        let stored = self.store.add_record(heap, self.words.as_slice(), TRIES)?;
        let words = self.words.len() as u32;
        self.note(heap, stored, Pending::Record { words })
    }

    /// Takes note of what a call came to that asked for this.
    fn note(&mut self, heap: &Heap, stored: Stored, asked: Pending) -> Result<(), AllocError>
        requires some { asked ≢ pending.Nothing }
        requires left { LeavesStore heap.now stored asked self.old.store }
        requires words { (many : ℕ) → asked ≡ pending.Record many → length self.old.words.items ≡ many }
        ensures { IsTwin heap.now self.new }
    {
        self.sums.add_stored(stored, asked);
        match stored {
            Stored::Busy => {
                self.waits = asked;
                Ok(())
            }
            Stored::Done => {
                self.waits = Pending::Nothing;
                self.hold(asked)
            }
            Stored::Refused => {
                self.waits = Pending::Nothing;
                Ok(())
            }
            Stored::Spent => {
                self.waits = Pending::Nothing;
                Ok(())
            }
        }
    }

    /// What was asked for is stored.
    fn hold(&mut self, asked: Pending) -> Result<(), AllocError>
        ensures store { self.new.store ≡ self.old.store }
        ensures waits { self.new.waits ≡ self.old.waits }
    {
        match asked {
            Pending::Pair { key, value } => self.plain.push_front(key, value),
            Pending::Record { .. } => self.plain.add_record(self.words.clone()?),
            _ => Ok(()),
        }
    }

    fn pop(&mut self, heap: &Heap)
        requires twin { IsTwin heap.now self.old }
        requires idle { self.old.waits ≡ pending.Nothing }
        ensures { IsTwin heap.now self.new }
    {
        let popped = self.store.pop_front(heap, TRIES);
        let wanted = self.plain.pop_front();
        self.note_popped(heap, popped, wanted);
    }

    fn remove(&mut self, heap: &Heap, key: u64)
        requires twin { IsTwin heap.now self.old }
        requires idle { self.old.waits ≡ pending.Nothing }
        ensures { IsTwin heap.now self.new }
    {
        let popped = self.store.remove(heap, key, TRIES);
        let wanted = self.plain.remove(key);
        self.note_popped(heap, popped, wanted);
    }

    /// Takes note of the pair that was taken out, and of the one that had to be.
    fn note_popped(&mut self, _heap: &Heap, popped: Popped, wanted: Option<(u64, u64)>)
        requires { LeavesPopped _heap.now popped self.old.store }
        ensures { IsTwin _heap.now self.new }
    {
        match popped {
            Popped::Got {
                key,
                value,
                freed: true,
            } => {
                self.waits = Pending::Nothing;
                count(&mut self.sums.taken);
                self.sums.compare(wanted == Some((key, value)));
            }
            Popped::Got { key, value, .. } => {
                self.waits = Pending::Free;
                count(&mut self.sums.taken);
                self.sums.add_busy(Pending::Free);
                self.sums.compare(wanted == Some((key, value)));
            }
            Popped::Empty => {
                self.waits = Pending::Nothing;
                self.sums.compare(wanted.is_none());
            }
        }
    }

    fn get(&mut self, heap: &Heap, key: u64)
        requires twin { IsTwin heap.now self.old }
        requires idle { self.old.waits ≡ pending.Nothing }
        ensures { IsTwin heap.now self.new }
    {
        let same = self.store.get(heap, key) == self.plain.get(key);
        count(&mut self.sums.read);
        self.sums.compare(same);
    }

    fn list(&mut self, alloc: Global, heap: &Heap) -> Result<(), AllocError>
        requires twin { IsTwin heap.now self.old }
        requires idle { self.old.waits ≡ pending.Nothing }
        ensures twin { IsTwin heap.now self.new }
        ensures idle { self.new.waits ≡ pending.Nothing }
    {
        let listed = self.store.list(alloc, heap)?;
        let same = self.plain.has_pairs(listed.as_slice());
        count(&mut self.sums.read);
        self.sums.compare(same);
        Ok(())
    }

    fn record(&mut self, alloc: Global, heap: &Heap, number: u32) -> Result<(), AllocError>
        requires twin { IsTwin heap.now self.old }
        requires idle { self.old.waits ≡ pending.Nothing }
        ensures twin { IsTwin heap.now self.new }
        ensures idle { self.new.waits ≡ pending.Nothing }
    {
        let same = match self.store.record(alloc, heap, number)? {
            Some(words) => self.plain.has_record(number, Some(words.as_slice())),
            None => self.plain.has_record(number, None),
        };
        count(&mut self.sums.read);
        self.sums.compare(same);
        Ok(())
    }
}

/// So many words that no other record has.
fn words_of(alloc: Global, many: u32, stamp: u64) -> Result<Vec<u64>, AllocError> {
    let mut words = Vec::with_capacity(alloc, many as usize)?;
    for i in 0..many {
        words.push(stamp.wrapping_mul(1_000_003).wrapping_add(u64::from(i)))?;
    }
    Ok(words)
}
