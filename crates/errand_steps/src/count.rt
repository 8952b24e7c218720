//! Which counts a step raises.

ghost use Rattle.std.specs.Prelude.{◌≡◌};
ghost use Rattle.errand_steps.specs.Errands.{counts_won, counts_lost, counts_cleared, is_lost_exchange, raised};
ghost use Rattle.errand_steps.specs.Points.{plan_point_of};

use crate::point::Point;
use packed_words::anchor::{Anchor, AnchorState};
use step_parts::hazard::point::DescPoint;
use step_parts::large::point::LargePoint;
use step_parts::partial::point::PartialPoint;
use word_table::action::{Action, Found};

/// Whether a step with this action is a won exchange that counts: its two numbers differ, or it is a
/// swap or an and.
#[inline(always)]
pub fn counts_won(action: Action, found: Found) -> bool
    ensures { result ≡ counts_won action found }
{
    match action {
        Action::Load(_) | Action::Store(..) => false,
        Action::Cas(_, expected, new) => found.won && expected != new,
        Action::Swap(..) | Action::And(..) => true,
    }
}

/// Whether a step is lost: an exchange that isn't won, but for a put that finds a block, or a
/// descriptor that isn't the top one any more. The action is the point's.
#[tactic(auto, unfolding(crate::specs::Points::plan_point_of))]
pub fn counts_lost(point: &Point, action: Action, found: Found) -> bool
    requires { action ≡ plan_point_of point.now }
    ensures { result ≡ counts_lost point.now found }
{
    match *point {
        Point::Desc {
            at: DescPoint::ReloadDescHead { desc, .. },
            ..
        } => found.value != u64::from(desc) + 1,
        Point::Large {
            at: LargePoint::PutBlock { .. },
            ..
        } => false,
        _ => is_lost_exchange(action, found),
    }
}

/// Whether the action is an exchange that isn't won.
fn is_lost_exchange(action: Action, found: Found) -> bool
    ensures { result ≡ is_lost_exchange action found }
{
    match action {
        Action::Cas(..) => !found.won,
        _ => false,
    }
}

/// Whether in this step an allocation took an empty superblock for a partial one.
pub fn counts_cleared(point: &Point, found: Found) -> bool
    ensures { result ≡ counts_cleared point.now found }
{
    match *point {
        Point::Partial {
            at: PartialPoint::LoadGrantAnchor { .. },
            ..
        } => matches!(Anchor::unpack(found.value).state(), AnchorState::Empty),
        _ => false,
    }
}

/// The count after a step that raises it or doesn't. It stands still at the end of its type.
#[inline(always)]
pub fn raised(rises: bool, count: u64) -> u64
    ensures { result ≡ raised rises count }
{
    if rises {
        count.saturating_add(1)
    } else {
        count
    }
}
