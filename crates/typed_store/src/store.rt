//! A store, and the calls on its list.

ghost use Rattle.std.specs.Prelude.{ℕ, Bool, ◌≡◌, ◌≢◌, ◌≤◌, ◌<◌, ◌+◌, ◌++◌, List, [], ◌∷◌, Option, Some, IfOk, IfErr, OnErr, OnOk, Ok, length, max, drop, slice_get, option_map};
ghost use Rattle.std.specs.Vec.{vec_capacity, vec_len};
ghost use Rattle.heap_geometry.specs.Need.{usable_words};
ghost use Rattle.pool_model.specs.Pool.{fresh_block};
ghost use Rattle.errand_steps.specs.Begins.{IsIdle};
ghost use Rattle.live_heap.specs.Heaps.{HeapFields};
ghost use Rattle.live_heap.specs.Contents.{owned_in};
ghost use Rattle.live_heap.specs.Holdings.{HoldsExactly};
ghost use Rattle.live_heap.specs.Passes.{IsOf};
ghost use Rattle.typed_store.specs.declared.store.Pending.TheVariants as pending;
ghost use Rattle.typed_store.specs.declared.store.Popped.TheVariants as popped;
ghost use Rattle.typed_store.specs.declared.store.Stored.TheVariants as stored;
ghost use Rattle.typed_store.specs.Causes.{IsAnswerOf, IsFreed, IsResumedAnswer};
ghost use Rattle.typed_store.specs.Nodes.{first_with, nodes_at, without_first};
ghost use Rattle.typed_store.specs.Passings.{KeepsWords, Rests, StandsBetween};
ghost use Rattle.typed_store.specs.Stores.{HasList, HasRecords, IsBuilt, IsReady, IsUnderWay, LeavesStore, LeavesPopped, TellsPopped, blocks_of, pairs_after, records_after, slot_count, with_pair, with_record};
ghost use Rattle.typed_store.specs.Walks.{ReadsPairs, ReadsRecord};

use crate::nodes::{NODE_WORDS, Node, read_node, write_node};
use crate::records::{read_record, record_token, write_record};
use crate::seeking::{Sought, list_pairs, relink, seek};
use crate::slot::{Slot, make_room, put_in, take_out, token};
use live_heap::answers::{AllocAnswer, FreeAnswer, Resumed};
use live_heap::block::Block;
use live_heap::heap::Heap;
use live_heap::pass::Pass;
use std::alloc::{AllocError, Global};

/// What a call that adds something has come to.
#[derive(Clone, Copy, Debug, PartialEq, Eq)]
pub enum Stored {
    /// It is stored.
    Done,
    /// The heap has no block for it.
    Refused,
    /// The caller has no turn left.
    Spent,
    /// The heap's call was interrupted. `Store::resume` goes on with it.
    Busy,
}

/// What a call that takes a pair out has come to.
#[derive(Clone, Copy, Debug, PartialEq, Eq)]
pub enum Popped {
    /// The pair, which has left the list. Its block is freed, or the free was interrupted, and
    /// `Store::resume` goes on with it.
    Got { key: u64, value: u64, freed: bool },
    /// There is no such pair.
    Empty,
}

/// What a store waits for.
#[derive(Clone, Copy, Debug, PartialEq, Eq)]
pub enum Pending {
    /// Nothing.
    Nothing,
    /// A block for this pair.
    Pair { key: u64, value: u64 },
    /// A block for a record of so many words.
    Record { words: u32 },
    /// The end of a free.
    Free,
}

/// A list of pairs and a list of records, in the blocks of one caller of a heap.
#[derive(Drop)]
pub struct Store {
    pub(crate) pass: Pass,
    /// The tokens of the nodes.
    pub(crate) slots: Vec<Slot>,
    /// The number of the first slot that holds none, or 0.
    pub(crate) unused: u64,
    /// The number of the first node, or 0.
    pub(crate) head: u64,
    /// How many pairs the list has.
    pub(crate) count: u64,
    /// The tokens of the records.
    pub(crate) records: Vec<Block>,
    /// How many records there are.
    pub(crate) recorded: u32,
    pub(crate) pending: Pending,
}

impl Store {
    /// An empty list and no records, for a caller that owns no block. It takes no memory.
    pub fn open(alloc: Global, pass: Pass) -> Store
        requires idle { IsIdle pass.errand }
        requires none { HoldsExactly pass [] }
        ensures ready { (heap : HeapFields) → IsOf heap pass → IsReady heap result }
        ensures list { HasList result [] }
        ensures records { HasRecords result [] }
        ensures pass { result.pass ≡ pass }
        ensures slots { slot_count result ≡ 0 }
    {
        Store {
            pass,
            slots: Vec::new(alloc),
            unused: 0,
            head: 0,
            count: 0,
            records: Vec::new(alloc),
            recorded: 0,
            pending: Pending::Nothing,
        }
    }

    /// Puts a pair in front. Room for it in the store is taken first, and then a block of the heap.
    #[inline(always)]
    pub fn push_front(
        &mut self,
        heap: &Heap,
        key: u64,
        value: u64,
        tries: u32,
    ) -> Result<Stored, AllocError>
        requires ready { IsReady heap.now self.old }
        requires tries { 0 < tries }
        ensures left { IfOk result (λ stored. LeavesStore heap.now stored (pending.Pair key value) self.new) }
        ensures list { IfOk result (λ stored. (pairs : List (ℕ × ℕ)) → HasList self.old pairs
            → HasList self.new (with_pair stored (key, value) pairs)) }
        ensures err { OnErr result (IsReady heap.now self.new × ((pairs : List (ℕ × ℕ)) → HasList self.old pairs → HasList self.new pairs)) }
        ensures records { (records : List (List ℕ)) → HasRecords self.old records → HasRecords self.new records }
        ensures cause { IfOk result (λ stored. IsAnswerOf heap.now self.old.pass 3 tries stored self.new.pass) }
        ensures slots { OnOk result ((pairs : List (ℕ × ℕ)) → HasList self.old pairs → slot_count self.new ≡ max (slot_count self.old) (length pairs + 1)) }
        ensures none { OnErr result ((slot_count self.new ≡ slot_count self.old) × (self.new.pass ≡ self.old.pass)) }
    {
        make_room(&mut self.slots, &mut self.unused)?;
        Ok(self.ask_for_node(heap, key, value, tries))
    }

    /// Asks for a block for a pair, for which there is room.
    #[inline(always)]
    fn ask_for_node(&mut self, heap: &Heap, key: u64, value: u64, tries: u32) -> Stored
        requires ready { IsReady heap.now self.old }
        requires room { self.old.unused ≢ 0 }
        requires tries { 0 < tries }
        ensures left { LeavesStore heap.now result (pending.Pair key value) self.new }
        ensures list { (pairs : List (ℕ × ℕ)) → HasList self.old pairs → HasList self.new (with_pair result (key, value) pairs) }
        ensures records { (records : List (List ℕ)) → HasRecords self.old records → HasRecords self.new records }
        ensures cause { IsAnswerOf heap.now self.old.pass 3 tries result self.new.pass }
        ensures slots { slot_count self.new ≡ slot_count self.old }
    {
        match heap.alloc(&mut self.pass, NODE_WORDS, tries) {
            AllocAnswer::Given(block) => {
                self.link(heap, block, key, value);
                Stored::Done
            }
            AllocAnswer::Refused => Stored::Refused,
            AllocAnswer::Spent => Stored::Spent,
            AllocAnswer::Busy => {
                self.pending = Pending::Pair { key, value };
                Stored::Busy
            }
            AllocAnswer::TooLarge => unreachable!(),
        }
    }

    /// Puts a pair in front, into a block of which no word is written.
    #[inline(always)]
    fn link(&mut self, heap: &Heap, block: Block, key: u64, value: u64)
        requires of { IsOf heap.now self.old.pass }
        requires idle { IsIdle self.old.pass.errand }
        requires exactly { HoldsExactly self.old.pass (block ∷ blocks_of self.old) }
        requires words { 3 ≤ usable_words block.need }
        requires blank { owned_in self.old.pass block.place ≡ Some (fresh_block self.old.pass.errand.caller 3 block.place) }
        requires built { IsBuilt self.old }
        requires room { self.old.unused ≢ 0 }
        ensures ready { IsReady heap.now self.new }
        ensures rests { Rests heap.now self.old.pass self.new.pass }
        ensures list { (pairs : List (ℕ × ℕ)) → HasList self.old pairs → HasList self.new ((key, value) ∷ pairs) }
        ensures records { (records : List (List ℕ)) → HasRecords self.old records → HasRecords self.new records }
        ensures slots { slot_count self.new ≡ slot_count self.old }
    {
        let node = Node {
            next: self.head,
            key,
            value,
        };
        write_node(heap, &mut self.pass, &block, node);
        self.head = put_in(&mut self.slots, &mut self.unused, block);
        self.count += 1;
    }

    /// Takes the first pair out.
    #[inline(always)]
    pub fn pop_front(&mut self, heap: &Heap, tries: u32) -> Popped
        requires ready { IsReady heap.now self.old }
        requires tries { 0 < tries }
        ensures left { LeavesPopped heap.now result self.new }
        ensures list { (pairs : List (ℕ × ℕ)) → HasList self.old pairs → TellsPopped (slice_get pairs 0) result × HasList self.new (drop 1 pairs) }
        ensures records { (records : List (List ℕ)) → HasRecords self.old records → HasRecords self.new records }
        ensures cause { IsFreed heap.now self.old tries result self.new }
        ensures slots { slot_count self.new ≡ slot_count self.old }
    {
        if self.head == 0 {
            return Popped::Empty;
        }
        let slot = (self.head - 1) as usize;
        let node = read_node(heap, &mut self.pass, token(&self.slots, slot));
        let first = Sought {
            previous: 0,
            slot,
            node,
        };
        self.unlink(heap, first, tries)
    }

    /// Takes the first pair with this key out.
    pub fn remove(&mut self, heap: &Heap, key: u64, tries: u32) -> Popped
        requires ready { IsReady heap.now self.old }
        requires tries { 0 < tries }
        ensures left { LeavesPopped heap.now result self.new }
        ensures list { (pairs : List (ℕ × ℕ)) → HasList self.old pairs
            → TellsPopped (first_with key pairs) result × HasList self.new (without_first key pairs) }
        ensures records { (records : List (List ℕ)) → HasRecords self.old records → HasRecords self.new records }
        ensures cause { IsFreed heap.now self.old tries result self.new }
        ensures slots { slot_count self.new ≡ slot_count self.old }
    {
        match seek(
            heap,
            &mut self.pass,
            &self.slots,
            self.head,
            self.count,
            key,
        ) {
            Some(sought) => self.unlink(heap, sought, tries),
            None => Popped::Empty,
        }
    }

    /// Takes a node out of the list, and frees its block.
    #[inline(always)]
    fn unlink(&mut self, heap: &Heap, sought: Sought, tries: u32) -> Popped
        requires ready { IsReady heap.now self.old }
        requires tries { 0 < tries }
        requires stands { (before : List (ℕ × ℕ)) × (after : List (ℕ × ℕ))
            × StandsBetween (nodes_at (owned_in self.old.pass) self.old.slots.items) self.old.head before sought after }
        ensures left { LeavesPopped heap.now result self.new }
        ensures told { (freed : Bool) × (result ≡ popped.Got sought.node.key sought.node.value freed) }
        ensures list { (before after : List (ℕ × ℕ)) → StandsBetween (nodes_at (owned_in self.old.pass) self.old.slots.items) self.old.head before sought after
            → HasList self.new (before ++ after) }
        ensures records { (records : List (List ℕ)) → HasRecords self.old records → HasRecords self.new records }
        ensures cause { IsFreed heap.now self.old tries result self.new }
        ensures slots { slot_count self.new ≡ slot_count self.old }
    {
        relink(heap, &mut self.pass, &self.slots, &mut self.head, &sought);
        self.count -= 1;
        let block = take_out(&mut self.slots, &mut self.unused, sought.slot);
        let Node { key, value, .. } = sought.node;
        match heap.free(&mut self.pass, block, tries) {
            FreeAnswer::Freed => Popped::Got {
                key,
                value,
                freed: true,
            },
            FreeAnswer::Busy => {
                self.pending = Pending::Free;
                Popped::Got {
                    key,
                    value,
                    freed: false,
                }
            }
        }
    }

    /// The value of the first pair with this key.
    pub fn get(&mut self, heap: &Heap, key: u64) -> Option<u64>
        requires { IsReady heap.now self.old }
        ensures ready { IsReady heap.now self.new }
        ensures rests { Rests heap.now self.old.pass self.new.pass }
        ensures list { (pairs : List (ℕ × ℕ)) → HasList self.old pairs
            → (result ≡ option_map (λ pair. pair.1) (first_with key pairs)) × HasList self.new pairs }
        ensures records { (records : List (List ℕ)) → HasRecords self.old records → HasRecords self.new records }
        ensures slots { slot_count self.new ≡ slot_count self.old }
        ensures stays { KeepsWords heap.now self.old.pass self.new.pass × (self.new ≡ record self.old { pass = self.new.pass }) }
    {
        match seek(
            heap,
            &mut self.pass,
            &self.slots,
            self.head,
            self.count,
            key,
        ) {
            Some(sought) => Some(sought.node.value),
            None => None,
        }
    }

    /// The pairs of the list, from front to back.
    pub fn list(&mut self, alloc: Global, heap: &Heap) -> Result<Vec<(u64, u64)>, AllocError>
        requires { IsReady heap.now self.old }
        ensures ready { IsReady heap.now self.new }
        ensures rests { Rests heap.now self.old.pass self.new.pass }
        ensures listed { IfOk result (λ listed. HasList self.old listed.items) }
        ensures list { (pairs : List (ℕ × ℕ)) → HasList self.old pairs → HasList self.new pairs }
        ensures records { (records : List (List ℕ)) → HasRecords self.old records → HasRecords self.new records }
        ensures slots { slot_count self.new ≡ slot_count self.old }
        ensures found { IfOk result (λ listed. ReadsPairs heap.now self.old.pass self.old.slots.items self.old.head listed.items self.new.pass) }
        ensures err { OnErr result (self.new.pass ≡ self.old.pass) }
        ensures stays { KeepsWords heap.now self.old.pass self.new.pass × (self.new ≡ record self.old { pass = self.new.pass }) }
    {
        list_pairs(
            alloc,
            heap,
            &mut self.pass,
            &self.slots,
            self.head,
            self.count,
        )
    }

    /// Appends a record of these words, at most 131,070; a store has at most 1,000,000. Room for its token
    /// in the store is taken first, and then a block of the heap.
    pub fn add_record(
        &mut self,
        heap: &Heap,
        words: &[u64],
        tries: u32,
    ) -> Result<Stored, AllocError>
        requires ready { IsReady heap.now self.old }
        requires tries { 0 < tries }
        requires few { length words.now ≤ 131070 }
        requires room { self.old.recorded < 1000000 }
        ensures left { IfOk result (λ stored. LeavesStore heap.now stored (pending.Record (length words.now)) self.new) }
        ensures records { IfOk result (λ stored. (records : List (List ℕ)) → HasRecords self.old records
            → HasRecords self.new (with_record stored words.now records)) }
        ensures err { OnErr result (IsReady heap.now self.new × ((records : List (List ℕ)) → HasRecords self.old records → HasRecords self.new records)) }
        ensures list { (pairs : List (ℕ × ℕ)) → HasList self.old pairs → HasList self.new pairs }
        ensures cause { IfOk result (λ stored. IsAnswerOf heap.now self.old.pass (length words.now + 1) tries stored self.new.pass) }
        ensures slots { slot_count self.new ≡ slot_count self.old }
        ensures none { OnErr result (self.new.pass ≡ self.old.pass) }
    {
        self.records.reserve(1)?;
        Ok(self.ask_for_record(heap, words, tries))
    }

    /// Asks for a block for a record, for which there is room.
    fn ask_for_record(&mut self, heap: &Heap, words: &[u64], tries: u32) -> Stored
        requires ready { IsReady heap.now self.old }
        requires tries { 0 < tries }
        requires few { length words.now ≤ 131070 }
        requires room { self.old.recorded < 1000000 }
        requires reserved { vec_len self.old.records < vec_capacity self.old.records }
        ensures left { LeavesStore heap.now result (pending.Record (length words.now)) self.new }
        ensures records { (records : List (List ℕ)) → HasRecords self.old records → HasRecords self.new (with_record result words.now records) }
        ensures list { (pairs : List (ℕ × ℕ)) → HasList self.old pairs → HasList self.new pairs }
        ensures cause { IsAnswerOf heap.now self.old.pass (length words.now + 1) tries result self.new.pass }
        ensures slots { slot_count self.new ≡ slot_count self.old }
    {
        let many = words.len() as u32;
        match heap.alloc(&mut self.pass, many + 1, tries) {
            AllocAnswer::Given(block) => {
                self.file(heap, block, words);
                Stored::Done
            }
            AllocAnswer::Refused => Stored::Refused,
            AllocAnswer::Spent => Stored::Spent,
            AllocAnswer::Busy => {
                self.pending = Pending::Record { words: many };
                Stored::Busy
            }
            AllocAnswer::TooLarge => unreachable!(),
        }
    }

    /// Appends a record, in a block that has room for it.
    fn file(&mut self, heap: &Heap, block: Block, words: &[u64])
        requires of { IsOf heap.now self.old.pass }
        requires idle { IsIdle self.old.pass.errand }
        requires exactly { HoldsExactly self.old.pass (block ∷ blocks_of self.old) }
        requires words { length words.now < usable_words block.need }
        requires blank { owned_in self.old.pass block.place ≡ Some (fresh_block self.old.pass.errand.caller (length words.now + 1) block.place) }
        requires built { IsBuilt self.old }
        requires room { self.old.recorded < 1000000 }
        requires reserved { vec_len self.old.records < vec_capacity self.old.records }
        ensures ready { IsReady heap.now self.new }
        ensures rests { Rests heap.now self.old.pass self.new.pass }
        ensures records { (records : List (List ℕ)) → HasRecords self.old records → HasRecords self.new (records ++ words.now ∷ []) }
        ensures list { (pairs : List (ℕ × ℕ)) → HasList self.old pairs → HasList self.new pairs }
        ensures slots { slot_count self.new ≡ slot_count self.old }
    {
        write_record(heap, &mut self.pass, &block, words);
        self.records.push_reserved(block);
        self.recorded += 1;
    }

    /// The words of a record, counted from 0.
    pub fn record(
        &mut self,
        alloc: Global,
        heap: &Heap,
        number: u32,
    ) -> Result<Option<Vec<u64>>, AllocError>
        requires { IsReady heap.now self.old }
        ensures ready { IsReady heap.now self.new }
        ensures rests { Rests heap.now self.old.pass self.new.pass }
        ensures found { IfOk result (λ found. (records : List (List ℕ)) → HasRecords self.old records
            → option_map (λ words. words.items) found ≡ slice_get records number) }
        ensures records { (records : List (List ℕ)) → HasRecords self.old records → HasRecords self.new records }
        ensures list { (pairs : List (ℕ × ℕ)) → HasList self.old pairs → HasList self.new pairs }
        ensures slots { slot_count self.new ≡ slot_count self.old }
        ensures read { IfOk result (λ found. ReadsRecord heap.now self.old.pass self.old.records.items number (option_map (λ words. words.items) found) self.new.pass) }
        ensures stays { KeepsWords heap.now self.old.pass self.new.pass × (self.new ≡ record self.old { pass = self.new.pass }) }
    {
        if number >= self.recorded {
            return Ok(None);
        }
        let block = record_token(&self.records, number as usize);
        Ok(Some(read_record(alloc, heap, &mut self.pass, block)?))
    }

    /// How many records there are.
    pub fn records(&self) -> u32
        ensures { (records : List (List ℕ)) → HasRecords self.now records → result ≡ length records }
    {
        self.recorded
    }

    /// Goes on with the call that was interrupted. A record's call is given its words again: the record has
    /// those of the call that ends it.
    pub fn resume(&mut self, heap: &Heap, words: &[u64], tries: u32) -> Stored
        requires under_way { IsUnderWay heap.now self.old }
        requires tries { 0 < tries }
        requires words { (many : ℕ) → self.old.pending ≡ pending.Record many → length words.now ≡ many }
        ensures left { LeavesStore heap.now result self.old.pending self.new }
        ensures list { (pairs : List (ℕ × ℕ)) → HasList self.old pairs → HasList self.new (pairs_after self.old.pending result pairs) }
        ensures records { (records : List (List ℕ)) → HasRecords self.old records
            → HasRecords self.new (records_after self.old.pending words.now result records) }
        ensures cause { IsResumedAnswer heap.now self.old.pending self.old.pass tries result self.new.pass }
        ensures slots { slot_count self.new ≡ slot_count self.old }
    {
        match self.pending {
            Pending::Pair { key, value } => self.resume_pair(heap, key, value, tries),
            Pending::Record { .. } => self.resume_record(heap, words, tries),
            Pending::Free => self.resume_free(heap, tries),
            Pending::Nothing => unreachable!(),
        }
    }

    /// Goes on asking for a block for a pair.
    fn resume_pair(&mut self, heap: &Heap, key: u64, value: u64, tries: u32) -> Stored
        requires under_way { IsUnderWay heap.now self.old }
        requires pending { self.old.pending ≡ pending.Pair key value }
        requires tries { 0 < tries }
        ensures left { LeavesStore heap.now result (pending.Pair key value) self.new }
        ensures list { (pairs : List (ℕ × ℕ)) → HasList self.old pairs → HasList self.new (with_pair result (key, value) pairs) }
        ensures records { (records : List (List ℕ)) → HasRecords self.old records → HasRecords self.new records }
        ensures cause { IsResumedAnswer heap.now (pending.Pair key value) self.old.pass tries result self.new.pass }
        ensures slots { slot_count self.new ≡ slot_count self.old }
    {
        match heap.resume(&mut self.pass, tries) {
            Resumed::Given(block) => {
                self.link(heap, block, key, value);
                Stored::Done
            }
            Resumed::Refused => Stored::Refused,
            Resumed::Spent => Stored::Spent,
            Resumed::Busy => Stored::Busy,
            Resumed::Freed => unreachable!(),
        }
    }

    /// Goes on asking for a block for a record.
    fn resume_record(&mut self, heap: &Heap, words: &[u64], tries: u32) -> Stored
        requires under_way { IsUnderWay heap.now self.old }
        requires pending { self.old.pending ≡ pending.Record (length words.now) }
        requires tries { 0 < tries }
        ensures left { LeavesStore heap.now result (pending.Record (length words.now)) self.new }
        ensures records { (records : List (List ℕ)) → HasRecords self.old records → HasRecords self.new (with_record result words.now records) }
        ensures list { (pairs : List (ℕ × ℕ)) → HasList self.old pairs → HasList self.new pairs }
        ensures cause { IsResumedAnswer heap.now (pending.Record (length words.now)) self.old.pass tries result self.new.pass }
        ensures slots { slot_count self.new ≡ slot_count self.old }
    {
        match heap.resume(&mut self.pass, tries) {
            Resumed::Given(block) => {
                self.file(heap, block, words);
                Stored::Done
            }
            Resumed::Refused => Stored::Refused,
            Resumed::Spent => Stored::Spent,
            Resumed::Busy => Stored::Busy,
            Resumed::Freed => unreachable!(),
        }
    }

    /// Goes on with a free.
    fn resume_free(&mut self, heap: &Heap, tries: u32) -> Stored
        requires under_way { IsUnderWay heap.now self.old }
        requires pending { self.old.pending ≡ pending.Free }
        requires tries { 0 < tries }
        ensures left { LeavesStore heap.now result pending.Free self.new }
        ensures list { (pairs : List (ℕ × ℕ)) → HasList self.old pairs → HasList self.new pairs }
        ensures records { (records : List (List ℕ)) → HasRecords self.old records → HasRecords self.new records }
        ensures cause { IsResumedAnswer heap.now pending.Free self.old.pass tries result self.new.pass }
        ensures slots { slot_count self.new ≡ slot_count self.old }
    {
        match heap.resume(&mut self.pass, tries) {
            Resumed::Freed => Stored::Done,
            Resumed::Busy => Stored::Busy,
            Resumed::Given(_) => unreachable!(),
            Resumed::Refused => unreachable!(),
            Resumed::Spent => unreachable!(),
        }
    }

    /// The pass of a store in no call. The blocks stay live.
    pub fn close(self) -> Pass
        requires { (heap : HeapFields) × IsReady heap self }
        ensures { result ≡ self.pass }
    {
        let Store { pass, .. } = self;
        pass
    }
}
