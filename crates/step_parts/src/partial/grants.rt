//! What a caller grants itself of a partial superblock.

ghost use Rattle.std.specs.Prelude.{◌≡◌, ◌≤◌};
ghost use Rattle.word_table.specs.declared.limits.TheConstants.{MOST_CREDITS};
ghost use Rattle.step_parts.specs.partial.Grants.{grant_more, granted_state, granted, is_empty};

use packed_words::anchor::{Anchor, AnchorState};
use word_table::limits::MOST_CREDITS;

/// How many blocks a grant reserves beside the one that is popped, where so many are free.
pub fn grant_more(count: u16) -> u8
    ensures value { result ≡ grant_more count }
    ensures within { result ≤ MOST_CREDITS }
{
    count.saturating_sub(1).min(MOST_CREDITS) as u8
}

/// The state after a grant that reserves so many more.
fn granted_state(more: u8) -> AnchorState
    ensures { result ≡ granted_state more }
{
    if more > 0 {
        AnchorState::Active
    } else {
        AnchorState::Full
    }
}

/// The anchor after a grant.
pub fn granted(anchor: Anchor) -> Anchor
    ensures { result ≡ granted anchor }
{
    let more = grant_more(anchor.count());
    let count = anchor.count().saturating_sub(u16::from(more) + 1);
    Anchor::new(anchor.avail(), count, granted_state(more), anchor.tag())
}

/// Whether all blocks of a superblock are free.
pub fn is_empty(state: AnchorState) -> bool
    ensures { result ≡ is_empty state }
{
    match state {
        AnchorState::Empty => true,
        AnchorState::Active | AnchorState::Full | AnchorState::Partial => false,
    }
}
