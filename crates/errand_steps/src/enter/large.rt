//! From a large block, a usable word or a shelf.

ghost use Rattle.std.specs.Prelude.{◌≡◌, IfSome};
ghost use Rattle.errand_steps.specs.declared.continuation.Continuation.{Continuation};
ghost use Rattle.errand_steps.specs.declared.next.Next.TheVariants.{End};
ghost use Rattle.errand_steps.specs.Errands.{EndsUncounted};
ghost use Rattle.errand_steps.specs.Nexts.{leave_large};

use crate::point::Point;
use crate::reply::Reply;
use heap_geometry::need::Need;
use step_parts::large::exit::LargeExit;
use step_parts::large::point::exit_on_word;
use word_table::action::Found;

/// The reply with which the call ends where a large block, a usable word or a shelf is left by this exit.
#[inline(always)]
pub(crate) fn ended(exit: LargeExit) -> Reply
    ensures { (o : Continuation) → leave_large exit o ≡ End result }
{
    match exit {
        LargeExit::GivenRun { place, run } => Reply::Given {
            place,
            need: Need::Large(run.units()),
        },
        LargeExit::NoRun => Reply::Refused,
        LargeExit::FreedRun => Reply::Freed,
        LargeExit::Wrote => Reply::Wrote,
        LargeExit::Word { value } => Reply::Word(value),
        LargeExit::PutDone => Reply::Put,
        LargeExit::ShelfFull { found } => Reply::Full { found },
        LargeExit::Got { place, need } => Reply::Got { place, need },
        LargeExit::NothingThere => Reply::Empty,
        LargeExit::Missed { expected, found } => Reply::Missed { expected, found },
    }
}

/// The reply with which a call on a usable word ends in this step, its only one, which counts nothing.
/// Most steps of a busy program are such ones, so they are looked for first.
#[inline(always)]
pub(crate) fn ending_on_word(point: &Point, found: Found) -> Option<Reply>
    ensures { IfSome result (EndsUncounted point.now found) }
{
    match *point {
        Point::Large { at, .. } => Some(ended(exit_on_word(&at, found)?)),
        _ => None,
    }
}
