//! Laws of stores: theorems about the definitions, on a function that does nothing.

ghost use Rattle.std.specs.Prelude.{ℕ, ◌≡◌, ◌+◌, ◌++◌, List, All, Some, length, slice_get};
ghost use Rattle.sound_laws.specs.events.Made.{Made};
ghost use Rattle.live_heap.specs.declared.block.Block.{Block};
ghost use Rattle.live_heap.specs.Heaps.{HeapFields};
ghost use Rattle.live_heap.specs.declared.pass.Pass.{Pass};
ghost use Rattle.live_heap.specs.Passes.{accesses, seen};
ghost use Rattle.pool_model.specs.Histories.{Begins, own};
ghost use Rattle.typed_store.specs.declared.slot.Slot.TheVariants as kind;
ghost use Rattle.typed_store.specs.declared.store.Store.{Store};
ghost use Rattle.typed_store.specs.Stores.{HasList, HasRecords, IsOnList, IsReady};
ghost use Rattle.typed_store.specs.Walks.{IsOnWord, LedBy, events_of};

/// A store has one list and one list of records; and each token that it keeps in a slot is that of a node
/// on its list.
pub fn stores_have_one_list()
    ensures list { (s : Store) (pairs others : List (ℕ × ℕ)) → HasList s pairs → HasList s others → pairs ≡ others }
    ensures records { (s : Store) (records others : List (List ℕ)) → HasRecords s records → HasRecords s others → records ≡ others }
    ensures nodes { (h : HeapFields) (s : Store) (slot : ℕ) (block : Block) → IsReady h s
        → slice_get s.slots.items slot ≡ Some (kind.Node block) → IsOnList s slot }
{}

/// What reads and writes of words show: each makes one access to a shared word; what the pass had seen, it
/// has seen first; and the events that its caller adds are those of the writes.
pub fn words_take_one_access_each()
    ensures grows { (h : HeapFields) (p q : Pass) (made : List Made) → LedBy h p made q → Begins (seen p) (seen q) }
    ensures accesses { (h : HeapFields) (p q : Pass) (made : List Made) → LedBy h p made q → accesses q ≡ length made + accesses p }
    ensures events { (h : HeapFields) (p q : Pass) (made : List Made) → All IsOnWord made → LedBy h p made q
        → own p.errand.caller (seen q) ≡ own p.errand.caller (seen p) ++ events_of p.errand.caller made }
{}
