//! Strides: steps in a superblock where nothing is lost and the next point is the one that the call expects.
//! In every other case the errand is put at the point, and the call goes on by it from what the step found.

ghost use Rattle.std.specs.Prelude.{◌≡◌, IfErr, IfOk, IfSome, Some, true};
ghost use Rattle.live_heap.specs.declared.pass.Pass.{Pass};
ghost use Rattle.live_heap.specs.Going.{EndsBy, HasGone, IsWalking, Rejoins};

use crate::block::Block;
use crate::heap::Heap;
use crate::pass::Pass;
use crate::shelves::ShelfRule;
use errand_steps::continuation::Continuation;
use errand_steps::told::Ending;
use heap_geometry::need::Need;
use step_parts::superblock::exit::BlockExit;
use step_parts::superblock::point::{BlockPoint, plan_block, settle_block};
use word_table::action::Found;

/// What a straight way expects of the point that a step leads to.
#[derive(Clone, Copy)]
pub(crate) enum Expected {
    LoadPushAnchor,
    StoreLinkOrGuard,
    PushBlock,
    LoadOwner,
    StoreLink,
    TakeCredit,
    LoadInfo,
    LoadAnchor,
    LoadLink,
    PopBlock,
    StorePrefixOrInstall,
    StorePrefix,
}

impl Expected {
    /// Whether the point is as expected.
    #[inline(always)]
    fn is_at(self, at: &BlockPoint) -> bool {
        match self {
            Expected::LoadPushAnchor => matches!(*at, BlockPoint::LoadPushAnchor { .. }),
            Expected::StoreLinkOrGuard => matches!(
                *at,
                BlockPoint::StoreLink { .. } | BlockPoint::StoreGuard { .. }
            ),
            Expected::PushBlock => matches!(*at, BlockPoint::PushBlock { .. }),
            Expected::LoadOwner => matches!(*at, BlockPoint::LoadOwner { .. }),
            Expected::StoreLink => matches!(*at, BlockPoint::StoreLink { .. }),
            Expected::TakeCredit => matches!(*at, BlockPoint::TakeCredit { .. }),
            Expected::LoadInfo => matches!(*at, BlockPoint::LoadInfo { .. }),
            Expected::LoadAnchor => matches!(*at, BlockPoint::LoadAnchor { .. }),
            Expected::LoadLink => matches!(*at, BlockPoint::LoadLink { .. }),
            Expected::PopBlock => matches!(*at, BlockPoint::PopBlock { .. }),
            Expected::StorePrefixOrInstall => matches!(
                *at,
                BlockPoint::StorePrefix { .. } | BlockPoint::InstallCredits { .. }
            ),
            Expected::StorePrefix => matches!(*at, BlockPoint::StorePrefix { .. }),
        }
    }
}

impl<R: ShelfRule> Heap<R> {
    /// Makes the step of a point, and goes to the next one where that is as expected; else answers what the
    /// step found.
    #[inline(always)]
    pub(crate) fn stride(
        &self,
        pass: &mut Pass,
        at: &mut BlockPoint,
        goes: &Continuation,
        tries: u32,
        expected: Expected,
    ) -> Result<(), Found>
        ghost start: { Pass }
        requires { IsWalking self.now start tries at.old goes.now pass.old }
        ensures on { IfOk result (λ gone. IsWalking self.now start tries at.new goes.now pass.new) }
        ensures off { IfErr result (λ found. Rejoins self.now start tries found pass.new) }
    {
        let action = plan_block(at);
        let found = self.walk(pass, action, at, goes, tries);
        let before = *at;
        let exit = settle_block(at, found);
        if found.won && exit.is_none() && expected.is_at(at) {
            pass.errand.count(action, found);
            return Ok(());
        }
        pass.errand.stand_at(before, *goes);
        Err(found)
    }

    /// Makes the step of a point at which the call is to end, and answers how it has; else what the step found.
    #[inline(always)]
    pub(crate) fn finish(
        &self,
        pass: &mut Pass,
        at: &BlockPoint,
        goes: &Continuation,
        tries: u32,
    ) -> Result<Ending<Block>, Found>
        ghost start: { Pass }
        requires { IsWalking self.now start tries at.now goes.now pass.old }
        ensures ends { IfOk result (λ ending. HasGone self.now start tries (Some ending) pass.new) }
        ensures off { IfErr result (λ found. Rejoins self.now start tries found pass.new) }
    {
        let action = plan_block(at);
        let found = self.walk(pass, action, at, goes, tries);
        let mut last = *at;
        let exit = settle_block(&mut last, found);
        if let Some(ending) = ending_by(exit, found.won) {
            pass.errand.count(action, found);
            return Ok(ending);
        }
        pass.errand.stand_at(*at, *goes);
        Err(found)
    }
}

/// How the call ends that leaves a superblock by this exit, by a step that is not lost.
#[inline(always)]
fn ending_by(exit: Option<BlockExit>, won: bool) -> Option<Ending<Block>>
    ensures { IfSome result (λ ending. (won ≡ true) × EndsBy exit ending) }
{
    match exit {
        Some(BlockExit::Given { site, index }) if won => Some(Ending::Given(Block {
            place: site.place(index),
            need: Need::Small(site.seat.class()),
        })),
        Some(BlockExit::Pushed { stored: false, .. }) if won => Some(Ending::Freed),
        _ => None,
    }
}
