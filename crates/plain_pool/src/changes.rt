//! Changes of what a plain pool stores. Only `store` takes memory.

ghost use Rattle.std.specs.Prelude.{◌≡◌, ◌<◌, ◌≤◌, ◌++◌, [], ◌∷◌, Some, None, IfSome, OnOk, OnErr, length, vec_len, vec_capacity};
ghost use Rattle.std.specs.Option.{option_map};
ghost use Rattle.std.specs.BTreeMap.{IsUnchanged};
ghost use Rattle.heap_geometry.specs.Need.{IsNeed, usable_words};
ghost use Rattle.pool_model.specs.Pool.{Block, handed_to, written};
ghost use Rattle.plain_pool.specs.Stored.{block_of, stored_at, Replaces};

use crate::live_block::LiveBlock;
use crate::places::Blocks;
use heap_geometry::need::usable;
use pool_model::event::Event;
use pool_model::owner::Owner;
use std::alloc::AllocError;

/// Stores a block at the place.
pub fn store(blocks: &mut Blocks, place: u32, block: LiveBlock) -> Result<(), AllocError>
    ensures ok { OnOk result (Replaces blocks.old blocks.new place (Some (block_of place block))) }
    ensures err { OnErr result (IsUnchanged blocks.old blocks.new) }
{
    let _ = blocks.insert(place, block)?;
    Ok(())
}

/// Takes the block at the place out.
pub fn remove(blocks: &mut Blocks, place: u32)
    ensures { Replaces blocks.old blocks.new place None }
{
    let _ = blocks.remove(&place);
}

/// Gives the block at the place another owner.
pub fn hand_to(blocks: &mut Blocks, place: u32, owner: Owner)
    ensures { Replaces blocks.old blocks.new place
        (option_map (handed_to owner) (stored_at blocks.old place)) }
{
    if let Some(block) = blocks.get_mut(&place) {
        block.owner = owner;
    }
}

/// Writes a word of the block at the place.
pub fn write_word(blocks: &mut Blocks, place: u32, i: u32, v: u64)
    requires { IfSome (stored_at blocks.old place) (λ block. i < length block.contents) }
    ensures { Replaces blocks.old blocks.new place
        (option_map (written i v) (stored_at blocks.old place)) }
{
    if let Some(block) = blocks.get_mut(&place) {
        block.words[i as usize] = Some(v);
    }
}

/// The usable words of the block at the place, and 0 where there is none.
pub fn words_of(blocks: &Blocks, place: u32) -> u32
    requires { IfSome (stored_at blocks.now place) (λ block. IsNeed block.need) }
    ensures { IfSome (stored_at blocks.now place) (λ block. result ≡ usable_words block.need) }
{
    match blocks.get(&place) {
        Some(block) => usable(block.need),
        None => 0,
    }
}

/// Adds an event for which there is room already.
pub fn record(events: &mut Vec<Event>, event: Event)
    requires { vec_len events.old < vec_capacity events.old }
    ensures items { events.new.items ≡ events.old.items ++ event ∷ [] }
    ensures room { vec_capacity events.old ≤ vec_capacity events.new }
{
    let _ = events.push(event);
}
