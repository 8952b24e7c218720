//! The points at which a caller takes a descriptor, or gives one back.

ghost use Rattle.std.specs.Prelude.{◌≡◌, ◌+◌};
ghost use Rattle.step_parts.specs.hazard.Points.{plan_desc_of, settle_desc_of};
ghost use Rattle.word_table.specs.Onwards.{exit_by, point_by};

use crate::hazard::exit::DescExit;
use crate::hazard::follow::{after_head, after_next, after_reload, after_top, named_in};
use crate::hazard::held::Held;
use word_table::action::{Action, Found};
use word_table::name::{WordName, name_of_desc};
use word_table::seat::Seat;

/// A caller's next step at the stack of available descriptors or at the hazard words.
///
/// `next` and `top` name a descriptor by its index plus 1, or none by 0, as the words do. `held` is
/// what the hazard words named that were read.
#[derive(Clone, Copy)]
pub enum DescPoint {
    /// Load the head, to take the top descriptor.
    LoadDescHead { seat: Seat },
    /// Store the hazard word: the top descriptor is in use.
    StoreHazard { seat: Seat, desc: u16 },
    /// Load the head again, to see whether the descriptor was still the top one.
    ReloadDescHead { seat: Seat, desc: u16 },
    /// Load which descriptor is below it.
    LoadNextDesc { seat: Seat, desc: u16 },
    /// Make the one below it the top.
    PopDesc { seat: Seat, desc: u16, next: u16 },
    /// Clear the hazard word: the descriptor is this caller's now.
    ClearAfterPop { seat: Seat, desc: u16 },
    /// Clear the hazard word.
    ClearHazard { seat: Seat },
    /// Read the hazard word of caller `at`.
    ReadHazard { seat: Seat, held: Held, at: u8 },
    /// Load the head, to push a descriptor that no hazard word named.
    LoadHeadToPush { seat: Seat, desc: u16 },
    /// Store which descriptor will be below it.
    StoreNextDesc { seat: Seat, desc: u16, top: u16 },
    /// Make it the top.
    PushDesc { seat: Seat, desc: u16, top: u16 },
}

/// The action of a point.
pub fn plan_desc(point: &DescPoint) -> Action
    ensures { result ≡ plan_desc_of point.now }
{
    match *point {
        DescPoint::LoadDescHead { .. }
        | DescPoint::ReloadDescHead { .. }
        | DescPoint::LoadHeadToPush { .. } => Action::Load(WordName::DescHead),
        DescPoint::StoreHazard { seat, desc } => {
            Action::Store(WordName::Hazard(seat.caller()), name_of_desc(desc))
        }
        DescPoint::LoadNextDesc { desc, .. } => Action::Load(WordName::Next(desc)),
        DescPoint::PopDesc { desc, next, .. } => Action::Cas(
            WordName::DescHead,
            name_of_desc(desc),
            u64::from(next),
        ),
        DescPoint::ClearAfterPop { seat, .. } | DescPoint::ClearHazard { seat } => {
            Action::Store(WordName::Hazard(seat.caller()), 0)
        }
        DescPoint::ReadHazard { at, .. } => Action::Load(WordName::Hazard(at)),
        DescPoint::StoreNextDesc { desc, top, .. } => {
            Action::Store(WordName::Next(desc), u64::from(top))
        }
        DescPoint::PushDesc { desc, top, .. } => Action::Cas(
            WordName::DescHead,
            u64::from(top),
            name_of_desc(desc),
        ),
    }
}

/// Goes on to the point after what the action found; where the caller leaves the part, it answers by
/// which exit, and the point stays as it was. A word that names no descriptor that the heap has,
/// where one is expected, leaves the point as it is. What the hazard words named stays in place.
pub fn settle_desc(at: &mut DescPoint, found: Found) -> Option<DescExit>
    ensures exit { result ≡ exit_by (settle_desc_of at.old found) }
    ensures point { at.new ≡ point_by at.old (settle_desc_of at.old found) }
{
    match at {
        DescPoint::LoadDescHead { seat } => *at = after_head(*seat, found.value),
        DescPoint::StoreHazard { seat, desc } => {
            *at = DescPoint::ReloadDescHead {
                seat: *seat,
                desc: *desc,
            };
        }
        DescPoint::ReloadDescHead { seat, desc } => *at = after_reload(*seat, *desc, found.value),
        DescPoint::LoadNextDesc { seat, desc } => *at = after_next(*seat, *desc, found.value),
        DescPoint::PopDesc { seat, desc, .. } => {
            if found.won {
                *at = DescPoint::ClearAfterPop {
                    seat: *seat,
                    desc: *desc,
                };
            } else {
                *at = DescPoint::LoadDescHead { seat: *seat };
            }
        }
        DescPoint::ClearAfterPop { seat, desc } => {
            return Some(DescExit::Got {
                seat: *seat,
                desc: *desc,
            });
        }
        DescPoint::ClearHazard { seat } => return Some(DescExit::Cleared { seat: *seat }),
        DescPoint::ReadHazard {
            seat,
            held,
            at: caller,
        } => {
            let name = named_in(*seat, found.value);
            if u32::from(*caller) + 1 < seat.geometry().callers {
                held.note(*caller, name);
                *caller += 1;
            } else {
                let mut noted = *held;
                noted.note(*caller, name);
                return Some(DescExit::Scanned {
                    seat: *seat,
                    held: noted,
                });
            }
        }
        DescPoint::LoadHeadToPush { seat, desc } => *at = after_top(*seat, *desc, found.value),
        DescPoint::StoreNextDesc { seat, desc, top } => {
            *at = DescPoint::PushDesc {
                seat: *seat,
                desc: *desc,
                top: *top,
            };
        }
        DescPoint::PushDesc { seat, desc, .. } => {
            if found.won {
                return Some(DescExit::Pushed {
                    seat: *seat,
                    desc: *desc,
                });
            }
            *at = DescPoint::LoadHeadToPush {
                seat: *seat,
                desc: *desc,
            };
        }
    }
    None
}
