//! The points at which a caller stands in a superblock.

ghost use Rattle.std.specs.Prelude.{◌≡◌, ◌==◌, if◌then◌else◌};
ghost use Rattle.step_parts.specs.superblock.Points.{plan_block_of, settle_block_of};
ghost use Rattle.step_parts.specs.declared.superblock.point.Share.{Share};
ghost use Rattle.word_table.specs.Onwards.{exit_by, point_by};

use crate::superblock::anchors::{more_of, new_anchor, new_credits, popped, pushed, returned};
use crate::superblock::exit::BlockExit;
use crate::superblock::follow::{
    after_active, after_anchor, after_info, after_link, after_owner, after_pop, after_prefix,
    after_push, after_push_anchor, after_return_anchor,
};
use crate::superblock::words::{
    active_name, block_name, credit_taken, held_word, live_prefix, new_link, null_word,
};
use packed_words::anchor::Anchor;
use word_table::action::{Action, Found};
use word_table::name::{WordName, name_of_desc};
use word_table::seat::{Seat, Site};

/// What a pop pays with.
#[derive(Clone, Copy)]
pub enum Share {
    /// A credit of an active word.
    Credit,
    /// The last credit of an active word. Its taker also takes new credits off the count, or finds
    /// that there are none.
    LastCredit,
    /// A block that was granted from a partial superblock, together with so many more.
    Grant { more: u8 },
}

/// A caller's next step in a superblock.
///
/// `index` says which block of the superblock is meant, `more` how many reserved blocks wait to be
/// offered. `stored` tells whether this call stored its hazard word.
#[derive(Clone, Copy)]
pub enum BlockPoint {
    /// Load the active word.
    LoadActive {
        seat: Seat,
    },
    /// Take a credit from the active word that was read.
    TakeCredit {
        seat: Seat,
        desc: u16,
        credits: u8,
    },
    /// Load where the superblock lies.
    LoadInfo {
        seat: Seat,
        desc: u16,
        share: Share,
    },
    /// Load the anchor, for a pop.
    LoadAnchor {
        site: Site,
        share: Share,
    },
    /// Load the prefix word of the first available block.
    LoadLink {
        site: Site,
        share: Share,
        anchor: Anchor,
    },
    /// Pop the first available block, whose prefix word was read.
    PopBlock {
        site: Site,
        share: Share,
        anchor: Anchor,
        prefix: u64,
    },
    /// Store the prefix word of the block that is handed out.
    StorePrefix {
        site: Site,
        index: u16,
    },
    /// Offer reserved blocks as credits of the active word, where it is null.
    InstallCredits {
        site: Site,
        index: u16,
        more: u16,
    },
    /// Make a new superblock the active one, where there is none.
    InstallSuperblock {
        site: Site,
    },
    /// Load the anchor, to return what could not be offered.
    LoadReturn {
        site: Site,
        index: u16,
        more: u16,
    },
    /// Return it to the count.
    ReturnCredits {
        site: Site,
        index: u16,
        more: u16,
        anchor: Anchor,
    },
    /// Load the prefix word of the block that is freed.
    LoadPrefix {
        seat: Seat,
        frame: u16,
        index: u16,
    },
    /// Load the anchor, for a push.
    LoadPushAnchor {
        site: Site,
        index: u16,
        stored: bool,
    },
    /// Store the hazard word, since this push makes the superblock empty.
    StoreGuard {
        site: Site,
        index: u16,
        anchor: Anchor,
    },
    /// Load whose superblock it is.
    LoadOwner {
        site: Site,
        index: u16,
        anchor: Anchor,
    },
    /// Store the link of the block that is freed.
    StoreLink {
        site: Site,
        index: u16,
        anchor: Anchor,
        stored: bool,
        heap: u8,
    },
    /// Push the block. The heap is the superblock's where the push makes it empty.
    PushBlock {
        site: Site,
        index: u16,
        anchor: Anchor,
        stored: bool,
        heap: u8,
    },
    /// Store the link of a block of a new superblock.
    LinkBlock {
        site: Site,
        index: u16,
    },
    /// Store where the new superblock lies, and whose it is.
    StoreInfo {
        site: Site,
    },
    /// Store the new superblock's anchor.
    StoreAnchor {
        site: Site,
    },
}

/// The action of a point.
#[inline(always)]
pub fn plan_block(point: &BlockPoint) -> Action
    ensures { result ≡ plan_block_of point.now }
{
    match *point {
        BlockPoint::LoadActive { seat } => Action::Load(active_name(seat)),
        BlockPoint::TakeCredit {
            seat,
            desc,
            credits,
        } => Action::Cas(
            active_name(seat),
            held_word(desc, u16::from(credits)),
            credit_taken(desc, credits),
        ),
        BlockPoint::LoadInfo { desc, .. } => Action::Load(WordName::Info(desc)),
        BlockPoint::LoadAnchor { site, .. }
        | BlockPoint::LoadReturn { site, .. }
        | BlockPoint::LoadPushAnchor { site, .. } => Action::Load(WordName::Anchor(site.desc)),
        BlockPoint::LoadLink { site, anchor, .. } => Action::Load(block_name(
            &site,
            anchor.avail(),
        )),
        BlockPoint::PopBlock {
            site,
            share,
            anchor,
            prefix,
        } => Action::Cas(
            WordName::Anchor(site.desc),
            anchor.pack(),
            popped(share, anchor, prefix).pack(),
        ),
        BlockPoint::StorePrefix { site, index } => {
            Action::Store(block_name(&site, index), live_prefix(site.desc))
        }
        BlockPoint::InstallCredits { site, more, .. } => Action::Cas(
            active_name(site.seat),
            null_word(),
            held_word(site.desc, more.saturating_sub(1)),
        ),
        BlockPoint::InstallSuperblock { site } => Action::Cas(
            active_name(site.seat),
            null_word(),
            held_word(site.desc, u16::from(new_credits(site.seat))),
        ),
        BlockPoint::ReturnCredits {
            site,
            more,
            anchor,
            ..
        } => Action::Cas(
            WordName::Anchor(site.desc),
            anchor.pack(),
            returned(more, anchor).pack(),
        ),
        BlockPoint::LoadPrefix { seat, frame, index } => {
            Action::Load(WordName::Arena(seat.place(frame, index)))
        }
        BlockPoint::StoreGuard { site, .. } => Action::Store(
            WordName::Hazard(site.seat.caller()),
            name_of_desc(site.desc),
        ),
        BlockPoint::LoadOwner { site, .. } => Action::Load(WordName::Info(site.desc)),
        BlockPoint::StoreLink {
            site,
            index,
            anchor,
            ..
        } => Action::Store(block_name(&site, index), u64::from(anchor.avail())),
        BlockPoint::PushBlock {
            site,
            index,
            anchor,
            ..
        } => Action::Cas(
            WordName::Anchor(site.desc),
            anchor.pack(),
            pushed(site.seat, index, anchor).pack(),
        ),
        BlockPoint::LinkBlock { site, index } => {
            Action::Store(block_name(&site, index), new_link(site.seat, index))
        }
        BlockPoint::StoreInfo { site } => {
            Action::Store(WordName::Info(site.desc), site.info_word())
        }
        BlockPoint::StoreAnchor { site } => Action::Store(
            WordName::Anchor(site.desc),
            new_anchor(site.seat).pack(),
        ),
    }
}

/// Goes on to the point after what the action found, and answers the exit where the caller leaves; the
/// point is as it was then. A word that is not expected leaves the point as it is too: one that names
/// nothing that the heap has, or an anchor whose first available block is none of the class.
#[inline(always)]
pub fn settle_block(at: &mut BlockPoint, found: Found) -> Option<BlockExit>
    ensures exit { result ≡ exit_by (settle_block_of at.old found) }
    ensures point { at.new ≡ point_by at.old (settle_block_of at.old found) }
{
    let from = *at;
    match from {
        BlockPoint::LoadActive { seat } => return after_active(seat, found.value).follow(at),
        BlockPoint::TakeCredit {
            seat,
            desc,
            credits,
        } => {
            let share = share_of(credits);
            *at = if found.won {
                BlockPoint::LoadInfo { seat, desc, share }
            } else {
                BlockPoint::LoadActive { seat }
            };
        }
        BlockPoint::LoadInfo { seat, desc, share } => {
            *at = after_info(seat, desc, share, found.value);
        }
        BlockPoint::LoadAnchor { site, share } => *at = after_anchor(site, share, found.value),
        BlockPoint::LoadLink {
            site,
            share,
            anchor,
        } => {
            *at = BlockPoint::PopBlock {
                site,
                share,
                anchor,
                prefix: found.value,
            };
        }
        BlockPoint::PopBlock {
            site,
            share,
            anchor,
            ..
        } => {
            *at = if found.won {
                after_pop(site, anchor.avail(), more_of(share, anchor))
            } else {
                BlockPoint::LoadAnchor { site, share }
            };
        }
        BlockPoint::StorePrefix { site, index } => return Some(BlockExit::Given { site, index }),
        BlockPoint::InstallCredits { site, index, more } => {
            *at = if found.won {
                BlockPoint::StorePrefix { site, index }
            } else {
                BlockPoint::LoadReturn { site, index, more }
            };
        }
        BlockPoint::InstallSuperblock { site } => {
            if !found.won {
                return Some(BlockExit::Discarded { site });
            }
            *at = BlockPoint::StorePrefix { site, index: 0 };
        }
        BlockPoint::LoadReturn { site, index, more } => {
            *at = after_return_anchor(site, index, more, found.value);
        }
        BlockPoint::ReturnCredits {
            site,
            index,
            more,
            ..
        } => {
            if found.won {
                return Some(BlockExit::Returned { site, index });
            }
            *at = BlockPoint::LoadReturn { site, index, more };
        }
        BlockPoint::LoadPrefix { seat, frame, index } => {
            *at = after_prefix(seat, frame, index, found.value);
        }
        BlockPoint::LoadPushAnchor {
            site,
            index,
            stored,
        } => *at = after_push_anchor(site, index, stored, found.value),
        BlockPoint::StoreGuard {
            site,
            index,
            anchor,
        } => {
            *at = BlockPoint::LoadOwner {
                site,
                index,
                anchor,
            };
        }
        BlockPoint::LoadOwner {
            site,
            index,
            anchor,
        } => *at = after_owner(site, index, anchor, found.value),
        BlockPoint::StoreLink {
            site,
            index,
            anchor,
            stored,
            heap,
        } => {
            *at = BlockPoint::PushBlock {
                site,
                index,
                anchor,
                stored,
                heap,
            };
        }
        BlockPoint::PushBlock {
            site,
            index,
            anchor,
            stored,
            heap,
        } => {
            if found.won {
                return Some(after_push(site, anchor, stored, heap));
            }
            *at = BlockPoint::LoadPushAnchor {
                site,
                index,
                stored,
            };
        }
        BlockPoint::LinkBlock { site, index } => *at = after_link(site, index),
        BlockPoint::StoreInfo { site } => *at = BlockPoint::StoreAnchor { site },
        BlockPoint::StoreAnchor { site } => *at = BlockPoint::InstallSuperblock { site },
    }
    None
}

/// What the taker of one of these credits pays with.
#[inline(always)]
fn share_of(credits: u8) -> Share
    ensures { result ≡ (if credits == 0 then Share.LastCredit else Share.Credit) }
{
    if credits == 0 {
        Share::LastCredit
    } else {
        Share::Credit
    }
}
