//! How the steps change an anchor.

ghost use Rattle.std.specs.Prelude.{◌≡◌, ◌≤◌};
ghost use Rattle.packed_words.specs.Prefix.{link_of};
ghost use Rattle.word_table.specs.declared.limits.TheConstants.{MOST_CREDITS};
ghost use Rattle.step_parts.specs.superblock.Anchors.{popped, taken_off, popped_state, more_of, returned, is_last, pushed, pushed_state, new_credits, new_anchor};

use crate::superblock::point::Share;
use packed_words::anchor::{Anchor, AnchorState};
use packed_words::prefix::link_of;
use packed_words::widths::{AVAIL_BITS, COUNT_BITS, TAG_BITS};
use word_table::limits::MOST_CREDITS;
use word_table::seat::Seat;

/// The anchor after a pop, whose popped block had this prefix word.
#[inline(always)]
pub fn popped(share: Share, anchor: Anchor, prefix: u64) -> Anchor
    ensures { result ≡ popped share anchor (link_of prefix) }
{
    Anchor::new(
        link_of(prefix),
        anchor.count() - taken_off(share, anchor),
        popped_state(share, anchor),
        (anchor.tag() + 1) % (1 << TAG_BITS),
    )
}

/// The free blocks that a pop takes off the count.
#[inline(always)]
fn taken_off(share: Share, anchor: Anchor) -> u16
    ensures value { result ≡ taken_off share anchor }
    ensures within { result ≤ anchor.count }
{
    match share {
        Share::LastCredit => anchor.count().min(MOST_CREDITS),
        Share::Credit | Share::Grant { .. } => 0,
    }
}

/// The state after a pop.
#[inline(always)]
fn popped_state(share: Share, anchor: Anchor) -> AnchorState
    ensures { result ≡ popped_state share anchor }
{
    match share {
        Share::LastCredit if anchor.count() == 0 => AnchorState::Full,
        _ => anchor.state(),
    }
}

/// How many reserved blocks wait to be offered after a pop.
#[inline(always)]
pub fn more_of(share: Share, anchor: Anchor) -> u16
    ensures { result ≡ more_of share anchor }
{
    match share {
        Share::Credit => 0,
        Share::LastCredit => anchor.count().min(MOST_CREDITS),
        Share::Grant { more } => u16::from(more),
    }
}

/// The anchor after reserved blocks are returned.
pub fn returned(more: u16, anchor: Anchor) -> Anchor
    ensures { result ≡ returned more anchor }
{
    Anchor::new(
        anchor.avail(),
        ((u32::from(anchor.count()) + u32::from(more)) % (1 << COUNT_BITS)) as u16,
        AnchorState::Partial,
        anchor.tag(),
    )
}

/// Whether a push makes the superblock empty.
#[inline(always)]
pub fn is_last(seat: Seat, anchor: Anchor) -> bool
    ensures { result ≡ is_last seat.class anchor }
{
    anchor.count() + 1 == seat.block_count()
}

/// The anchor after a push of this block.
#[inline(always)]
pub fn pushed(seat: Seat, index: u16, anchor: Anchor) -> Anchor
    ensures { result ≡ pushed seat.class index anchor }
{
    let avail = index % (1 << AVAIL_BITS);
    if is_last(seat, anchor) {
        Anchor::new(avail, anchor.count(), AnchorState::Empty, anchor.tag())
    } else {
        let count = (anchor.count() + 1) % (1 << COUNT_BITS);
        Anchor::new(avail, count, pushed_state(anchor.state()), anchor.tag())
    }
}

/// The state after a push that leaves the superblock with live or reserved blocks.
#[inline(always)]
fn pushed_state(state: AnchorState) -> AnchorState
    ensures { result ≡ pushed_state state }
{
    match state {
        AnchorState::Full => AnchorState::Partial,
        _ => state,
    }
}

/// The credits that a new superblock is installed with.
pub fn new_credits(seat: Seat) -> u8
    ensures { result ≡ new_credits seat.class }
{
    ((seat.block_count() - 1).min(MOST_CREDITS) - 1) as u8
}

/// The anchor of a new superblock.
pub fn new_anchor(seat: Seat) -> Anchor
    ensures { result ≡ new_anchor seat.class }
{
    let count = (seat.block_count() - 1) - (u16::from(new_credits(seat)) + 1);
    Anchor::new(1, count, AnchorState::Active, 0)
}
