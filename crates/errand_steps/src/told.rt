//! What a step and a call came to, with a block in place of the numbers that name it.

ghost use Rattle.std.specs.Prelude.{ℕ, ◌≡◌, Some, IsSomeAnd};
ghost use Rattle.heap_geometry.specs.declared.need.Need.{Need};
ghost use Rattle.heap_geometry.specs.Need.{IsNeed};
ghost use Rattle.errand_steps.specs.declared.reply.Progress.{Progress};
ghost use Rattle.errand_steps.specs.Told.{GivesBack, IsTellable, ended_as, stepped_as};

use crate::reply::{Offer, Progress, Reply};
use heap_geometry::need::Need;

/// What a step came to, where `B` is a block.
#[derive(PartialEq, Eq, Drop)]
pub enum Stepped<B> {
    /// The caller was in no call, and made no step.
    Idle,
    /// The call goes on.
    More,
    /// The call goes on after a lost exchange.
    Lost,
    /// The call goes on after it took an empty superblock for a partial one.
    Cleared,
    /// The call has ended.
    Done(Ending<B>),
}

/// How a call has ended, where `B` is a block.
#[derive(PartialEq, Eq, Drop)]
pub enum Ending<B> {
    /// The allocation is given this block.
    Given(B),
    /// The allocation is refused.
    Refused,
    /// The allocation would have begun a turn, and its caller has none left.
    Spent,
    /// The block is freed.
    Freed,
    /// The word is written.
    Wrote,
    /// The word that was read.
    Word(u64),
    /// The block lies on the shelf.
    Put,
    /// The shelf holds a block already, `found` is its word, and the caller has its own back.
    Full { block: B, found: u64 },
    /// The block that was taken from the shelf.
    Got(B),
    /// The shelf is empty.
    Empty,
    /// The shelf's word was another one than the one that was read before.
    Missed { expected: u64, found: u64 },
}

/// What makes blocks of the numbers that name them.
pub trait MakesBlocks {
    /// What it makes.
    type Block;

    /// The arena word of a block's prefix.
    ghost place_of: { Self.Block → ℕ };

    /// What a block serves.
    ghost need_of: { Self.Block → Need };

    /// The block at this place.
    fn made(place: u32, need: Need) -> Self::Block
        requires { IsNeed need }
        ensures { (place_of result ≡ place) × (need_of result ≡ need) };
}

/// What a step came to, with blocks in place of their numbers. A put that was under way offered this block.
#[inline]
pub fn told<M: MakesBlocks>(progress: Progress, offer: Option<Offer>) -> Stepped<M::Block>
    requires { IsTellable offer progress }
    ensures progress { stepped_as M.place_of M.need_of result ≡ progress }
    ensures back { GivesBack M.place_of M.need_of offer result }
{
    match progress {
        Progress::Idle => Stepped::Idle,
        Progress::More => Stepped::More,
        Progress::Lost => Stepped::Lost,
        Progress::Cleared => Stepped::Cleared,
        Progress::Done(reply) => Stepped::Done(ended::<M>(reply, offer)),
    }
}

/// The same of the step that ends a call.
#[inline]
pub fn ended<M: MakesBlocks>(reply: Reply, offer: Option<Offer>) -> Ending<M::Block>
    requires { IsTellable offer (Progress.Done reply) }
    ensures reply { ended_as M.place_of M.need_of result ≡ reply }
    ensures back { GivesBack M.place_of M.need_of offer (Stepped.Done result) }
{
    match reply {
        Reply::Given { place, need } => Ending::Given(M::made(place, need)),
        Reply::Refused => Ending::Refused,
        Reply::Spent => Ending::Spent,
        Reply::Freed => Ending::Freed,
        Reply::Wrote => Ending::Wrote,
        Reply::Word(word) => Ending::Word(word),
        Reply::Put => Ending::Put,
        Reply::Full { found } => Ending::Full {
            block: given_back::<M>(offer),
            found,
        },
        Reply::Got { place, need } => Ending::Got(M::made(place, need)),
        Reply::Empty => Ending::Empty,
        Reply::Missed { expected, found } => Ending::Missed { expected, found },
    }
}

/// The block that a put offered, which its caller has back.
#[inline]
fn given_back<M: MakesBlocks>(offer: Option<Offer>) -> M::Block
    requires { IsSomeAnd offer (λ own. IsNeed own.need) }
    ensures { offer ≡ Some (record { place = M.place_of result; need = M.need_of result }) }
{
    match offer {
        Some(Offer { place, need }) => M::made(place, need),
        None => unreachable!(),
    }
}
