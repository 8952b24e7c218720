//! Where a found word leads.

ghost use Rattle.std.specs.Prelude.{◌≡◌, nat_lt};
ghost use Rattle.packed_words.specs.Active.{active_of};
ghost use Rattle.packed_words.specs.Prefix.{prefix_of};
ghost use Rattle.word_table.specs.Counts.{descriptor_count};
ghost use Rattle.word_table.specs.Seats.{info_in, anchor_in};
ghost use Rattle.step_parts.specs.superblock.Points.{after_active, after_info, after_anchor, after_pop, after_return_anchor, after_prefix, after_push_anchor, after_owner, after_link, after_push, after_push_to};

use crate::superblock::anchors::is_last;
use crate::superblock::exit::BlockExit;
use crate::superblock::point::{BlockPoint, Share};
use packed_words::active::ActiveWord;
use packed_words::anchor::{Anchor, AnchorState};
use packed_words::prefix::Prefix;
use word_table::onward::Onward;
use word_table::seat::{Seat, Site};

/// Whether the heap has the descriptor.
fn has_desc(seat: Seat, desc: u16) -> bool
    ensures { result ≡ nat_lt desc (descriptor_count seat.geometry) }
{
    u32::from(desc) < seat.descriptors()
}

/// From an active word.
#[inline(always)]
pub fn after_active(seat: Seat, word: u64) -> Onward<BlockPoint, BlockExit>
    ensures { result ≡ after_active seat (active_of word) }
{
    match ActiveWord::unpack(word) {
        Some(ActiveWord::Null) => Onward::Leaves(BlockExit::WantsPartial { seat }),
        Some(ActiveWord::Held { desc, credits }) if has_desc(seat, desc) => {
            Onward::Stays(BlockPoint::TakeCredit {
                seat,
                desc,
                credits,
            })
        }
        _ => Onward::Stays(BlockPoint::LoadActive { seat }),
    }
}

/// From the word of a descriptor of which a block was reserved.
#[inline(always)]
pub fn after_info(seat: Seat, desc: u16, share: Share, word: u64) -> BlockPoint
    ensures { result ≡ after_info seat desc share (info_in seat.geometry word) }
{
    match seat.info(word) {
        Some(info) => {
            let site = Site {
                seat,
                desc,
                frame: info.frame(),
            };
            BlockPoint::LoadAnchor { site, share }
        }
        None => BlockPoint::LoadInfo { seat, desc, share },
    }
}

/// From an anchor, for a pop.
#[inline(always)]
pub fn after_anchor(site: Site, share: Share, word: u64) -> BlockPoint
    ensures { result ≡ after_anchor site share (anchor_in site.seat.class word) }
{
    match site.seat.anchor(word) {
        Some(anchor) => BlockPoint::LoadLink {
            site,
            share,
            anchor,
        },
        None => BlockPoint::LoadAnchor { site, share },
    }
}

/// From a pop of this block.
#[inline(always)]
pub fn after_pop(site: Site, index: u16, more: u16) -> BlockPoint
    ensures { result ≡ after_pop site index more }
{
    if more > 0 {
        BlockPoint::InstallCredits { site, index, more }
    } else {
        BlockPoint::StorePrefix { site, index }
    }
}

/// From an anchor, to return what could not be offered.
pub fn after_return_anchor(site: Site, index: u16, more: u16, word: u64) -> BlockPoint
    ensures { result ≡ after_return_anchor site index more (anchor_in site.seat.class word) }
{
    match site.seat.anchor(word) {
        Some(anchor) => BlockPoint::ReturnCredits {
            site,
            index,
            more,
            anchor,
        },
        None => BlockPoint::LoadReturn { site, index, more },
    }
}

/// From the prefix word of the block that is freed.
#[inline(always)]
pub fn after_prefix(seat: Seat, frame: u16, index: u16, word: u64) -> BlockPoint
    ensures { result ≡ after_prefix seat frame index (prefix_of word) }
{
    match Prefix::unpack(word) {
        Some(Prefix::Small { desc }) if has_desc(seat, desc) => BlockPoint::LoadPushAnchor {
            site: Site { seat, desc, frame },
            index,
            stored: false,
        },
        _ => BlockPoint::LoadPrefix { seat, frame, index },
    }
}

/// From an anchor, for a push.
#[inline(always)]
pub fn after_push_anchor(site: Site, index: u16, stored: bool, word: u64) -> BlockPoint
    ensures { result ≡ after_push_anchor site index stored (anchor_in site.seat.class word) }
{
    match site.seat.anchor(word) {
        Some(anchor) if is_last(site.seat, anchor) => BlockPoint::StoreGuard {
            site,
            index,
            anchor,
        },
        Some(anchor) => BlockPoint::StoreLink {
            site,
            index,
            anchor,
            stored,
            heap: 0,
        },
        None => BlockPoint::LoadPushAnchor {
            site,
            index,
            stored,
        },
    }
}

/// From the word of the guarded descriptor.
pub fn after_owner(site: Site, index: u16, anchor: Anchor, word: u64) -> BlockPoint
    ensures { result ≡ after_owner site index anchor (info_in site.seat.geometry word) }
{
    match site.seat.info(word) {
        Some(info) => BlockPoint::StoreLink {
            site,
            index,
            anchor,
            stored: true,
            heap: info.heap(),
        },
        None => BlockPoint::LoadOwner {
            site,
            index,
            anchor,
        },
    }
}

/// From the link of a new superblock's block.
pub fn after_link(site: Site, index: u16) -> BlockPoint
    ensures { result ≡ after_link site index }
{
    if u32::from(index) + 1 < u32::from(site.seat.block_count()) {
        BlockPoint::LinkBlock {
            site,
            index: index + 1,
        }
    } else {
        BlockPoint::StoreInfo { site }
    }
}

/// From a push, which leaves the superblock.
#[inline(always)]
pub fn after_push(site: Site, anchor: Anchor, stored: bool, heap: u8) -> BlockExit
    ensures { result ≡ after_push site anchor stored heap }
{
    if is_last(site.seat, anchor) {
        BlockExit::BecameEmpty { site, heap }
    } else {
        after_push_to(site, stored, anchor.state())
    }
}

/// From a push that leaves the superblock with live or reserved blocks, by the state before it.
fn after_push_to(site: Site, stored: bool, state: AnchorState) -> BlockExit
    ensures { result ≡ after_push_to site stored state }
{
    match state {
        AnchorState::Full => BlockExit::BecamePartial { site, stored },
        _ => BlockExit::Pushed {
            seat: site.seat,
            stored,
        },
    }
}
