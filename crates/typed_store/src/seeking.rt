//! Walks along a list.

ghost use Rattle.std.specs.Prelude.{ℕ, ◌≡◌, ◌≢◌, List, ◌++◌, All, None, IfOk, IfSome, IfNone, OnErr, length};
ghost use Rattle.errand_steps.specs.Begins.{IsIdle};
ghost use Rattle.live_heap.specs.declared.block.Block.{Block};
ghost use Rattle.live_heap.specs.Contents.{owned_in};
ghost use Rattle.live_heap.specs.Holdings.{HoldsExactly};
ghost use Rattle.live_heap.specs.Passes.{IsOf};
ghost use Rattle.typed_store.specs.Links.{Leads};
ghost use Rattle.typed_store.specs.Nodes.{Spells, first_with, nodes_at, tokens_in};
ghost use Rattle.typed_store.specs.Passings.{FindsNode, KeepsWords, Rests, StandsBetween, but};
ghost use Rattle.typed_store.specs.Walks.{ReadsPairs};

use crate::nodes::{Node, read_node, write_next};
use crate::slot::{Slot, token};
use live_heap::heap::Heap;
use live_heap::pass::Pass;
use std::alloc::{AllocError, Global};

/// Where a node stands in a list.
#[derive(Clone, Copy)]
pub(crate) struct Sought {
    /// The number of the node before it, or 0.
    pub previous: u64,
    /// Its own slot.
    pub slot: usize,
    pub node: Node,
}

/// The node of the first pair with this key, in the list of so many pairs that begins at this number.
pub(crate) fn seek(
    heap: &Heap,
    pass: &mut Pass,
    slots: &Vec<Slot>,
    head: u64,
    count: u64,
    key: u64,
) -> Option<Sought>
    requires of { IsOf heap.now pass.old }
    requires idle { IsIdle pass.old.errand }
    requires held { (more : List Block) × HoldsExactly pass.old (tokens_in slots.now.items ++ more) }
    requires spelled { (pairs : List (ℕ × ℕ)) × Spells (owned_in pass.old) slots.now.items head pairs × (count ≡ length pairs) }
    ensures reads { KeepsWords heap.now pass.old pass.new }
    ensures found { IfSome result (λ sought. (pairs : List (ℕ × ℕ)) → Spells (owned_in pass.old) slots.now.items head pairs
        → FindsNode (nodes_at (owned_in pass.old) slots.now.items) head key pairs sought) }
    ensures none { IfNone result ((pairs : List (ℕ × ℕ)) → Spells (owned_in pass.old) slots.now.items head pairs → first_with key pairs ≡ None) }
{
    let mut previous = 0;
    let mut here = head;
    for _passed in 0..count {
        let slot = (here - 1) as usize;
        let node = read_node(heap, pass, token(slots, slot));
        if node.key == key {
            return Some(Sought {
                previous,
                slot,
                node,
            });
        }
        previous = here;
        here = node.next;
    }
    None
}

/// The pairs of the list of so many that begins at this number, from front to back.
pub(crate) fn list_pairs(
    alloc: Global,
    heap: &Heap,
    pass: &mut Pass,
    slots: &Vec<Slot>,
    head: u64,
    count: u64,
) -> Result<Vec<(u64, u64)>, AllocError>
    requires of { IsOf heap.now pass.old }
    requires idle { IsIdle pass.old.errand }
    requires held { (more : List Block) × HoldsExactly pass.old (tokens_in slots.now.items ++ more) }
    requires spelled { (pairs : List (ℕ × ℕ)) × Spells (owned_in pass.old) slots.now.items head pairs × (count ≡ length pairs) }
    ensures reads { KeepsWords heap.now pass.old pass.new }
    ensures pairs { IfOk result (λ listed. (pairs : List (ℕ × ℕ)) → Spells (owned_in pass.old) slots.now.items head pairs → listed.items ≡ pairs) }
    ensures found { IfOk result (λ listed. ReadsPairs heap.now pass.old slots.now.items head listed.items pass.new) }
    ensures err { OnErr result (pass.new ≡ pass.old) }
{
    let mut listed = Vec::with_capacity(alloc, count as usize)?;
    let mut here = head;
    for _passed in 0..count {
        let node = read_node(heap, pass, token(slots, (here - 1) as usize));
        listed.push_reserved((node.key, node.value));
        here = node.next;
    }
    Ok(listed)
}

/// Lets what leads to a node lead to the one behind it.
#[inline(always)]
pub(crate) fn relink(
    heap: &Heap,
    pass: &mut Pass,
    slots: &Vec<Slot>,
    head: &mut u64,
    sought: &Sought,
)
    requires of { IsOf heap.now pass.old }
    requires idle { IsIdle pass.old.errand }
    requires held { (more : List Block) × HoldsExactly pass.old (tokens_in slots.now.items ++ more) }
    requires stands { (before : List (ℕ × ℕ)) × (after : List (ℕ × ℕ))
        × StandsBetween (nodes_at (owned_in pass.old) slots.now.items) head.old before sought.now after }
    ensures rests { Rests heap.now pass.old pass.new }
    ensures list { (before after : List (ℕ × ℕ)) → StandsBetween (nodes_at (owned_in pass.old) slots.now.items) head.old before sought.now after
        → Leads (but (nodes_at (owned_in pass.new) slots.now.items) sought.now.slot) head.new (before ++ after) 0 }
    ensures others { (place : ℕ) → All (λ block. block.place ≢ place) (tokens_in slots.now.items)
        → owned_in pass.new place ≡ owned_in pass.old place }
{
    if sought.previous == 0 {
        *head = sought.node.next;
    } else {
        let slot = (sought.previous - 1) as usize;
        write_next(heap, pass, token(slots, slot), sought.node.next);
    }
}
