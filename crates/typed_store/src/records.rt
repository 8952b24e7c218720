//! Records, each in a block that begins with how many words it has.

ghost use Rattle.std.specs.Prelude.{ℕ, ◌≡◌, ◌≢◌, ◌<◌, List, Some, IfOk, length, slice_get};
ghost use Rattle.heap_geometry.specs.Need.{usable_words};
ghost use Rattle.errand_steps.specs.Begins.{IsIdle};
ghost use Rattle.live_heap.specs.declared.block.Block.{Block};
ghost use Rattle.live_heap.specs.Contents.{owned_in};
ghost use Rattle.live_heap.specs.Passes.{IsOf, Owns};
ghost use Rattle.typed_store.specs.Passings.{KeepsWords, Rests};
ghost use Rattle.typed_store.specs.Records.{IsRecord};
ghost use Rattle.typed_store.specs.Walks.{LedBy, record_reads};

use live_heap::block::Block;
use live_heap::heap::Heap;
use live_heap::pass::Pass;
use std::alloc::{AllocError, Global};

/// Writes a record of these words, at most 131,070, into a block that has one more.
pub(crate) fn write_record(heap: &Heap, pass: &mut Pass, block: &Block, words: &[u64])
    requires of { IsOf heap.now pass.old }
    requires idle { IsIdle pass.old.errand }
    requires owned { Owns pass.old block.now }
    requires room { length words.now < usable_words block.now.need }
    ensures rests { Rests heap.now pass.old pass.new }
    ensures record { IsRecord pass.new block.now words.now }
    ensures others { (place : ℕ) → place ≢ block.now.place → owned_in pass.new place ≡ owned_in pass.old place }
{
    heap.write(pass, block, 0, words.len() as u64);
    heap.write_slice(pass, block, 1, words);
}

/// The token of a record.
pub(crate) fn record_token(records: &Vec<Block>, number: usize) -> &Block
    requires { (block : Block) × (slice_get records.now.items number ≡ Some block) }
    ensures { slice_get records.now.items number ≡ Some result.now }
{
    &records[number]
}

/// The words of the record in a block.
pub(crate) fn read_record(
    alloc: Global,
    heap: &Heap,
    pass: &mut Pass,
    block: &Block,
) -> Result<Vec<u64>, AllocError>
    requires of { IsOf heap.now pass.old }
    requires idle { IsIdle pass.old.errand }
    requires owned { Owns pass.old block.now }
    requires record { (words : List ℕ) × IsRecord pass.old block.now words }
    ensures reads { KeepsWords heap.now pass.old pass.new }
    ensures words { IfOk result (λ read. (words : List ℕ) → IsRecord pass.old block.now words → read.items ≡ words) }
    ensures found { IfOk result (λ read. LedBy heap.now pass.old (record_reads block.now read.items) pass.new) }
{
    let _most = block.usable_words();
    let count = heap.read(pass, block, 0) as u32;
    let mut words = vec![in alloc; 0; count as usize]?;
    heap.read_slice(pass, block, 1, &mut words);
    Ok(words)
}
