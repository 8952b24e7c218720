//! Where a found word leads.

ghost use Rattle.std.specs.Prelude.{◌≡◌};
ghost use Rattle.packed_words.specs.Anchor.{anchor_of};
ghost use Rattle.word_table.specs.Seats.{desc_named, info_in, anchor_in};
ghost use Rattle.step_parts.specs.partial.Points.{after_slot, after_kept, after_taken_info, after_grant_anchor, after_live, after_owner, after_put, after_displaced, after_held_slot, after_listed_anchor};

use crate::partial::exit::PartialExit;
use crate::partial::grants::is_empty;
use crate::partial::point::PartialPoint;
use packed_words::anchor::Anchor;
use word_table::name::name_of_desc;
use word_table::onward::Onward;
use word_table::seat::{Seat, Site};

/// From the slot of the caller's processor heap.
#[inline(always)]
pub fn after_slot(seat: Seat, word: u64) -> Onward<PartialPoint, PartialExit>
    ensures { result ≡ after_slot seat word }
{
    if word == 0 {
        Onward::Leaves(PartialExit::SlotEmpty { seat })
    } else {
        Onward::Stays(after_kept(seat, word))
    }
}

/// From that slot, where it is not empty.
fn after_kept(seat: Seat, word: u64) -> PartialPoint
    ensures { result ≡ after_kept seat (desc_named seat.geometry word) }
{
    match seat.desc_named(word) {
        Some(desc) => PartialPoint::TakeSlot { seat, desc },
        None => PartialPoint::LoadSlot { seat },
    }
}

/// From the word of a descriptor that was taken.
pub fn after_taken_info(seat: Seat, desc: u16, word: u64) -> PartialPoint
    ensures { result ≡ after_taken_info seat desc (info_in seat.geometry word) }
{
    match seat.info(word) {
        Some(info) => PartialPoint::StoreOwner {
            site: Site {
                seat,
                desc,
                frame: info.frame(),
            },
        },
        None => PartialPoint::LoadTakenInfo { seat, desc },
    }
}

/// From the anchor of a superblock that was taken.
#[inline(always)]
pub fn after_grant_anchor(site: Site, word: u64) -> Onward<PartialPoint, PartialExit>
    ensures { result ≡ after_grant_anchor site (anchor_of word) (anchor_in site.seat.class word) }
{
    if is_empty(Anchor::unpack(word).state()) {
        Onward::Leaves(PartialExit::TookEmpty { site })
    } else {
        Onward::Stays(after_live(site, word))
    }
}

/// From such an anchor, where blocks of the superblock are not free.
fn after_live(site: Site, word: u64) -> PartialPoint
    ensures { result ≡ after_live site (anchor_in site.seat.class word) }
{
    match site.seat.anchor(word) {
        Some(anchor) => PartialPoint::Grant { site, anchor },
        None => PartialPoint::LoadGrantAnchor { site },
    }
}

/// From the word of a descriptor whose superblock became partial.
pub fn after_owner(seat: Seat, desc: u16, word: u64) -> PartialPoint
    ensures { result ≡ after_owner seat desc (info_in seat.geometry word) }
{
    match seat.info(word) {
        Some(info) => PartialPoint::PutSlot {
            seat,
            desc,
            heap: info.heap(),
        },
        None => PartialPoint::LoadOwner { seat, desc },
    }
}

/// From the slot into which a superblock was put.
#[inline(always)]
pub fn after_put(seat: Seat, desc: u16, heap: u8, word: u64) -> Onward<PartialPoint, PartialExit>
    ensures { result ≡ after_put seat desc heap word }
{
    if word == 0 {
        Onward::Leaves(PartialExit::SlotFilled { seat })
    } else {
        after_displaced(seat, desc, heap, word)
    }
}

/// From that slot, where it was not empty.
#[inline(always)]
fn after_displaced(seat: Seat, desc: u16, heap: u8, word: u64) -> Onward<PartialPoint, PartialExit>
    ensures { result ≡ after_displaced seat desc heap (desc_named seat.geometry word) }
{
    match seat.desc_named(word) {
        Some(other) => Onward::Leaves(PartialExit::Displaced { seat, desc: other }),
        None => Onward::Stays(PartialPoint::PutSlot { seat, desc, heap }),
    }
}

/// From the slot in which a superblock may stand that became empty.
#[inline(always)]
pub fn after_held_slot(
    seat: Seat,
    desc: u16,
    heap: u8,
    word: u64,
) -> Onward<PartialPoint, PartialExit>
    ensures { result ≡ after_held_slot seat desc heap word }
{
    if word == name_of_desc(desc) {
        Onward::Stays(PartialPoint::RemoveFromSlot { seat, desc, heap })
    } else {
        Onward::Leaves(PartialExit::NotInSlot { seat })
    }
}

/// From the anchor of a superblock that was popped from the list.
pub fn after_listed_anchor(seat: Seat, desc: u16, word: u64) -> PartialExit
    ensures { result ≡ after_listed_anchor seat desc (anchor_of word) }
{
    if is_empty(Anchor::unpack(word).state()) {
        PartialExit::ListedEmpty { seat, desc }
    } else {
        PartialExit::ListedPartial { seat, desc }
    }
}
