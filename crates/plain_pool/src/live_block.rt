//! A live block as a plain pool stores it, under its place.

ghost use Rattle.std.specs.Prelude.{◌≡◌, IfOk, replicate, None};
ghost use Rattle.heap_geometry.specs.Need.{IsNeed, usable_words};
ghost use Rattle.pool_model.specs.declared.owner.Owner.TheVariants.{Caller};

use heap_geometry::need::{Need, usable};
use pool_model::owner::Owner;
use std::alloc::{AllocError, Global};

/// A live block: what it serves, who owns it, and what each usable word holds, where it was written.
#[derive(Debug, Drop)]
pub struct LiveBlock {
    pub need: Need,
    pub owner: Owner,
    pub words: Vec<Option<u64>>,
}

/// A block as a caller is given it: no word is written yet.
pub fn fresh_block(alloc: Global, need: Need, caller: u32) -> Result<LiveBlock, AllocError>
    requires { IsNeed need }
    ensures need { IfOk result (λ block. block.need ≡ need) }
    ensures owner { IfOk result (λ block. block.owner ≡ Caller caller) }
    ensures words { IfOk result (λ block. block.words.items ≡ replicate (usable_words need) None) }
{
    let words = vec![in alloc; None; usable(need) as usize]?;
    Ok(LiveBlock {
        need,
        owner: Owner::Caller(caller),
        words,
    })
}
