//! Slots: where a store keeps the tokens of its nodes.

ghost use Rattle.std.specs.Prelude.{ℕ, ◌≡◌, ◌≢◌, ◌-◌, ◌+◌, ◌<◌, Option, Some, OnOk, OnErr, length, max, slice_set, slice_get};
ghost use Rattle.live_heap.specs.declared.block.Block.{Block};
ghost use Rattle.pool_model.specs.Pool.{Block as PoolBlock};
ghost use Rattle.typed_store.specs.declared.slot.Slot.TheVariants as kind;
ghost use Rattle.typed_store.specs.Nodes.{IsSpare, nodes_at, tokens_in};

use live_heap::block::Block;
use std::alloc::AllocError;
use std::mem;

/// A numbered place for the token of a node. Slots that hold none are chained, so that one is found at
/// once; numbers are those of a slot plus 1, and 0 stands for no slot.
#[derive(Drop)]
pub enum Slot {
    /// The token of a node.
    Node(Block),
    /// No node, and the number of the next slot that has none.
    Spare(u64),
}

/// The token in a slot that holds one.
#[inline(always)]
pub(crate) fn token(slots: &Vec<Slot>, slot: usize) -> &Block
    requires { (block : Block) × (slice_get slots.now.items slot ≡ Some (kind.Node block)) }
    ensures { slice_get slots.now.items slot ≡ Some (kind.Node result.now) }
{
    match &slots[slot] {
        Slot::Node(block) => block,
        Slot::Spare(_) => unreachable!(),
    }
}

/// Sees to it that a slot is spare. Where memory is wanted, all is as before.
#[inline(always)]
pub(crate) fn make_room(slots: &mut Vec<Slot>, unused: &mut u64) -> Result<(), AllocError>
    requires { IsSpare slots.old.items unused.old }
    ensures ok { OnOk result (unused.new ≢ 0) }
    ensures spare { IsSpare slots.new.items unused.new }
    ensures tokens { tokens_in slots.new.items ≡ tokens_in slots.old.items }
    ensures nodes { (owned : ℕ → Option PoolBlock) (slot : ℕ) → nodes_at owned slots.new.items slot ≡ nodes_at owned slots.old.items slot }
    ensures none { unused.old ≢ 0 → slots.new.items ≡ slots.old.items }
    ensures many { OnOk result (length slots.new.items ≡ max (length slots.old.items) (length (tokens_in slots.old.items) + 1)) }
    ensures err { OnErr result (slots.new.items ≡ slots.old.items) }
{
    if *unused == 0 {
        slots.push(Slot::Spare(0))?;
        *unused = slots.as_slice().len() as u64;
    }
    Ok(())
}

/// Puts a token into the first spare slot, and answers its number.
#[inline(always)]
pub(crate) fn put_in(slots: &mut Vec<Slot>, unused: &mut u64, block: Block) -> u64
    requires one { unused.old ≢ 0 }
    requires spare { (next : ℕ) × (slice_get slots.old.items (unused.old - 1) ≡ Some (kind.Spare next)) }
    ensures number { result ≡ unused.old }
    ensures was { slice_get slots.old.items (unused.old - 1) ≡ Some (kind.Spare unused.new) }
    ensures slots { slots.new.items ≡ slice_set slots.old.items (unused.old - 1) (kind.Node block) }
{
    let number = *unused;
    let slot = (number - 1) as usize;
    match mem::replace(&mut slots[slot], Slot::Node(block)) {
        Slot::Spare(next) => *unused = next,
        Slot::Node(_) => unreachable!(),
    }
    number
}

/// Takes the token out of a slot, which is the first spare one then.
#[inline(always)]
pub(crate) fn take_out(slots: &mut Vec<Slot>, unused: &mut u64, slot: usize) -> Block
    requires { (block : Block) × (slice_get slots.old.items slot ≡ Some (kind.Node block)) }
    ensures block { slice_get slots.old.items slot ≡ Some (kind.Node result) }
    ensures unused { unused.new ≡ slot + 1 }
    ensures slots { slots.new.items ≡ slice_set slots.old.items slot (kind.Spare unused.old) }
{
    let next = *unused;
    *unused = slot as u64 + 1;
    match mem::replace(&mut slots[slot], Slot::Spare(next)) {
        Slot::Node(block) => block,
        Slot::Spare(_) => unreachable!(),
    }
}
