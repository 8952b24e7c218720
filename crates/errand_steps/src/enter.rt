//! What follows a step: the parts one after another, by what a caller goes on with.

pub mod blocks;
pub mod descriptors;
pub mod large;
pub mod partials;
pub mod stacks;

ghost use Rattle.std.specs.Prelude.{◌≡◌, IfSome, None};
ghost use Rattle.errand_steps.specs.declared.next.Next.TheVariants.{At};
ghost use Rattle.errand_steps.specs.Nexts.{next_of};
ghost use Rattle.errand_steps.specs.Points.{plan_point_of};

use crate::enter::blocks::leave_block;
use crate::enter::descriptors::leave_desc;
use crate::enter::large::ended;
use crate::enter::partials::leave_partial;
use crate::enter::stacks::leave_stack;
use crate::next::Next;
use crate::point::Point;
use step_parts::hazard::point::{plan_desc, settle_desc};
use step_parts::large::point::{plan_large, settle_large};
use step_parts::partial::point::{plan_partial, settle_partial};
use step_parts::stack::point::{plan_stack, settle_stack};
use step_parts::superblock::point::{plan_block, settle_block};
use word_table::action::{Action, Found};
use word_table::name::WordName;

/// The action of a point. A caller in no call makes none, and its action here stands for nothing.
#[tactic(auto, unfolding(crate::specs::Points::plan_point_of))]
pub fn plan_point(point: &Point) -> Action
    ensures { result ≡ plan_point_of point.now }
{
    match *point {
        Point::Idle => Action::Load(WordName::FrameHead),
        Point::Block { at, .. } => plan_block(&at),
        Point::Stack { at, .. } => plan_stack(&at),
        Point::Desc { at, .. } => plan_desc(&at),
        Point::Partial { at, .. } => plan_partial(&at),
        Point::Large { at, .. } => plan_large(&at),
    }
}

/// Goes on in place from the step in which the point's action found this, where the caller stays in its
/// part. Where it leaves, the point stays as it was, and the answer is what follows.
#[tactic(auto, unfolding(crate::specs::Nexts::next_of))]
#[inline(always)]
pub(crate) fn settle_point(point: &mut Point, found: Found) -> Option<Next>
    ensures stays { result ≡ None → next_of point.old found ≡ At point.new }
    ensures leaves { IfSome result (λ next. (next ≡ next_of point.old found) × (point.new ≡ point.old)) }
{
    match point {
        Point::Idle => None,
        Point::Block { at, continuation } => {
            Some(leave_block(settle_block(at, found)?, *continuation))
        }
        Point::Stack { at, continuation } => {
            Some(leave_stack(settle_stack(at, found)?, *continuation))
        }
        Point::Desc { at, continuation } => {
            Some(leave_desc(settle_desc(at, found)?, *continuation))
        }
        Point::Partial { at, continuation } => {
            Some(leave_partial(settle_partial(at, found)?, *continuation))
        }
        Point::Large { at, .. } => Some(Next::end(ended(settle_large(at, found)?))),
    }
}
