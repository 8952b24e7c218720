//! The points at which a caller stands at a partial superblock.

ghost use Rattle.std.specs.Prelude.{◌≡◌};
ghost use Rattle.step_parts.specs.partial.Points.{plan_partial_of, settle_partial_of};
ghost use Rattle.word_table.specs.Onwards.{exit_by, point_by};

use crate::partial::exit::PartialExit;
use crate::partial::follow::{
    after_grant_anchor, after_held_slot, after_listed_anchor, after_owner, after_put, after_slot,
    after_taken_info,
};
use crate::partial::grants::{grant_more, granted};
use crate::partial::words::{slot_name, slot_of};
use packed_words::anchor::Anchor;
use word_table::action::{Action, Found};
use word_table::name::{WordName, name_of_desc};
use word_table::seat::{Seat, Site};

/// A caller's next step at a partial superblock.
///
/// `desc` is the superblock's descriptor, and `heap` the processor heap that it was last taken for.
#[derive(Clone, Copy)]
pub enum PartialPoint {
    /// Load the slot of the caller's processor heap.
    LoadSlot { seat: Seat },
    /// Take the superblock that was read from the slot.
    TakeSlot { seat: Seat, desc: u16 },
    /// Load where the superblock lies that was taken from the slot or the list.
    LoadTakenInfo { seat: Seat, desc: u16 },
    /// Store that the superblock is the caller's processor heap's now.
    StoreOwner { site: Site },
    /// Load the anchor, for a grant.
    LoadGrantAnchor { site: Site },
    /// Reserve blocks of the superblock.
    Grant { site: Site, anchor: Anchor },
    /// Load whose superblock it is that became partial.
    LoadOwner { seat: Seat, desc: u16 },
    /// Put the superblock into its processor heap's slot.
    PutSlot { seat: Seat, desc: u16, heap: u8 },
    /// Load the slot in which the superblock that became empty may stand.
    LoadHeldSlot { seat: Seat, desc: u16, heap: u8 },
    /// Take it out of the slot.
    RemoveFromSlot { seat: Seat, desc: u16, heap: u8 },
    /// Load the anchor of a superblock that was popped from the list to see if it is empty.
    LoadListedAnchor { seat: Seat, desc: u16 },
}

/// The action of a point.
pub fn plan_partial(point: &PartialPoint) -> Action
    ensures { result ≡ plan_partial_of point.now }
{
    match *point {
        PartialPoint::LoadSlot { seat } => Action::Load(slot_name(seat)),
        PartialPoint::TakeSlot { seat, desc } => {
            Action::Cas(slot_name(seat), name_of_desc(desc), 0)
        }
        PartialPoint::LoadTakenInfo { desc, .. } | PartialPoint::LoadOwner { desc, .. } => {
            Action::Load(WordName::Info(desc))
        }
        PartialPoint::StoreOwner { site } => {
            Action::Store(WordName::Info(site.desc), site.info_word())
        }
        PartialPoint::LoadGrantAnchor { site } => Action::Load(WordName::Anchor(site.desc)),
        PartialPoint::Grant { site, anchor } => Action::Cas(
            WordName::Anchor(site.desc),
            anchor.pack(),
            granted(anchor).pack(),
        ),
        PartialPoint::PutSlot { seat, desc, heap } => {
            Action::Swap(slot_of(seat, heap), name_of_desc(desc))
        }
        PartialPoint::LoadHeldSlot { seat, heap, .. } => Action::Load(slot_of(seat, heap)),
        PartialPoint::RemoveFromSlot { seat, desc, heap } => {
            Action::Cas(slot_of(seat, heap), name_of_desc(desc), 0)
        }
        PartialPoint::LoadListedAnchor { desc, .. } => Action::Load(WordName::Anchor(desc)),
    }
}

/// Goes on to the point after what the action found; where the caller leaves the part, it answers by
/// which exit, and the point stays as it was. A word that is not expected leaves the point as it is:
/// one that names nothing that the heap has, or an anchor, for a grant, whose first available block
/// is none of the class; of an anchor that is read for its state alone nothing else is looked at.
pub fn settle_partial(at: &mut PartialPoint, found: Found) -> Option<PartialExit>
    ensures exit { result ≡ exit_by (settle_partial_of at.old found) }
    ensures point { at.new ≡ point_by at.old (settle_partial_of at.old found) }
{
    let from = *at;
    match from {
        PartialPoint::LoadSlot { seat } => return after_slot(seat, found.value).follow(at),
        PartialPoint::TakeSlot { seat, desc } => {
            if found.won {
                *at = PartialPoint::LoadTakenInfo { seat, desc };
            } else {
                *at = PartialPoint::LoadSlot { seat };
            }
        }
        PartialPoint::LoadTakenInfo { seat, desc } => {
            *at = after_taken_info(seat, desc, found.value);
        }
        PartialPoint::StoreOwner { site } => *at = PartialPoint::LoadGrantAnchor { site },
        PartialPoint::LoadGrantAnchor { site } => {
            return after_grant_anchor(site, found.value).follow(at);
        }
        PartialPoint::Grant { site, anchor } => {
            if found.won {
                let more = grant_more(anchor.count());
                return Some(PartialExit::Granted { site, more });
            }
            *at = PartialPoint::LoadGrantAnchor { site };
        }
        PartialPoint::LoadOwner { seat, desc } => *at = after_owner(seat, desc, found.value),
        PartialPoint::PutSlot { seat, desc, heap } => {
            return after_put(seat, desc, heap, found.value).follow(at);
        }
        PartialPoint::LoadHeldSlot { seat, desc, heap } => {
            return after_held_slot(seat, desc, heap, found.value).follow(at);
        }
        PartialPoint::RemoveFromSlot { seat, desc, .. } => {
            return Some(if found.won {
                PartialExit::Removed { seat, desc }
            } else {
                PartialExit::NotInSlot { seat }
            });
        }
        PartialPoint::LoadListedAnchor { seat, desc } => {
            return Some(after_listed_anchor(seat, desc, found.value));
        }
    }
    None
}
