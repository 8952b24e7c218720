//! The nodes of a list, each a block of three words.

ghost use Rattle.std.specs.Prelude.{ℕ, ◌≡◌, ◌≢◌, ◌≤◌, Some};
ghost use Rattle.heap_geometry.specs.Need.{usable_words};
ghost use Rattle.pool_model.specs.Pool.{fresh_block};
ghost use Rattle.errand_steps.specs.Begins.{IsIdle};
ghost use Rattle.live_heap.specs.Contents.{owned_in};
ghost use Rattle.live_heap.specs.Passes.{IsOf, Owns};
ghost use Rattle.typed_store.specs.Nodes.{node_at};
ghost use Rattle.typed_store.specs.Passings.{KeepsWords, Rests};
ghost use Rattle.typed_store.specs.Walks.{LedBy, node_reads};

use live_heap::block::Block;
use live_heap::heap::Heap;
use live_heap::pass::Pass;

/// The usable words of a node's block.
pub const NODE_WORDS: u32 = 3;

/// A node as its block holds it.
#[derive(Clone, Copy, Debug, PartialEq, Eq)]
pub struct Node {
    /// The number of the next node, or 0.
    pub next: u64,
    pub key: u64,
    pub value: u64,
}

/// The node in a block.
#[inline(always)]
pub(crate) fn read_node(heap: &Heap, pass: &mut Pass, block: &Block) -> Node
    requires of { IsOf heap.now pass.old }
    requires idle { IsIdle pass.old.errand }
    requires owned { Owns pass.old block.now }
    requires node { (next : ℕ) × (pair : ℕ × ℕ) × (node_at (owned_in pass.old block.now.place) ≡ Some (next, pair)) }
    ensures reads { KeepsWords heap.now pass.old pass.new }
    ensures node { node_at (owned_in pass.old block.now.place) ≡ Some (result.next, (result.key, result.value)) }
    ensures found { LedBy heap.now pass.old (node_reads block.now result.next (result.key, result.value)) pass.new }
{
    let mut words = [0; NODE_WORDS as usize];
    heap.read_slice(pass, block, 0, &mut words);
    let [next, key, value] = words;
    Node { next, key, value }
}

/// Writes a node into a block of which no word is written.
#[inline(always)]
pub(crate) fn write_node(heap: &Heap, pass: &mut Pass, block: &Block, node: Node)
    requires of { IsOf heap.now pass.old }
    requires idle { IsIdle pass.old.errand }
    requires owned { Owns pass.old block.now }
    requires words { 3 ≤ usable_words block.now.need }
    requires blank { owned_in pass.old block.now.place ≡ Some (fresh_block pass.old.errand.caller 3 block.now.place) }
    ensures rests { Rests heap.now pass.old pass.new }
    ensures node { node_at (owned_in pass.new block.now.place) ≡ Some (node.next, (node.key, node.value)) }
    ensures others { (place : ℕ) → place ≢ block.now.place → owned_in pass.new place ≡ owned_in pass.old place }
{
    heap.write_slice(pass, block, 0, &[node.next, node.key, node.value]);
}

/// Lets a node lead to another one.
#[inline(always)]
pub(crate) fn write_next(heap: &Heap, pass: &mut Pass, block: &Block, next: u64)
    requires of { IsOf heap.now pass.old }
    requires idle { IsIdle pass.old.errand }
    requires owned { Owns pass.old block.now }
    requires node { (was : ℕ) × (pair : ℕ × ℕ) × (node_at (owned_in pass.old block.now.place) ≡ Some (was, pair)) }
    ensures rests { Rests heap.now pass.old pass.new }
    ensures node { (was : ℕ) (pair : ℕ × ℕ) → node_at (owned_in pass.old block.now.place) ≡ Some (was, pair)
        → node_at (owned_in pass.new block.now.place) ≡ Some (next, pair) }
    ensures others { (place : ℕ) → place ≢ block.now.place → owned_in pass.new place ≡ owned_in pass.old place }
{
    heap.write(pass, block, 0, next);
}
