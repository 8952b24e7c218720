//! Numbers of packed words, by the table of their fields.

use crate::expect::expect;
use heap_geometry::need::Need;
use packed_words::active::ActiveWord;
use packed_words::anchor::{Anchor, AnchorState};
use packed_words::head::Head;
use packed_words::info::Info;
use packed_words::prefix::{Prefix, link_of};
use packed_words::shelf::ShelfWord;

/// Whether this anchor is packed into this word, and is unpacked from there.
fn is_anchor(anchor: Anchor, word: u64) -> bool {
    anchor.pack() == word && Anchor::unpack(word) == anchor
}

/// Whether an anchor has these fields.
fn has_fields(anchor: Anchor, avail: u16, count: u16, state: AnchorState, tag: u64) -> bool {
    anchor.avail() == avail
        && anchor.count() == count
        && anchor.state() == state
        && anchor.tag() == tag
}

/// Each code of a state stands in bits 22 and 23.
#[test]
fn anchors(rt: HostRuntime) {
    let rows = [
        (Anchor::new(1, 1983, AnchorState::Active, 0), 4_061_185),
        (Anchor::new(65, 895, AnchorState::Active, 64), 1_075_574_849),
        (Anchor::new(1, 1983, AnchorState::Active, 64), 1_077_803_009),
        (Anchor::new(0, 0, AnchorState::Full, 0), 1 << 22),
        (Anchor::new(0, 0, AnchorState::Partial, 0), 2 << 22),
        (Anchor::new(0, 0, AnchorState::Empty, 0), 3 << 22),
    ];
    for (anchor, word) in rows {
        expect(&rt, is_anchor(anchor, word), word);
    }
    let again = Anchor::unpack(1_077_803_009);
    expect(&rt, has_fields(again, 1, 1983, AnchorState::Active, 64), 0);
}

/// Whether this active word is packed into this word, and is unpacked from there.
fn is_active(word: u64, active: ActiveWord) -> bool {
    match ActiveWord::unpack(word) {
        Some(found) => found == active && found.pack() == word,
        None => false,
    }
}

/// The active word of a descriptor with so many credits.
fn held(desc: u16, credits: u8) -> ActiveWord {
    ActiveWord::Held { desc, credits }
}

#[test]
fn active_words(rt: HostRuntime) {
    let rows = [
        (0, ActiveWord::Null),
        (64, held(0, 0)),
        (127, held(0, 63)),
        (128, held(1, 0)),
    ];
    for (word, active) in rows {
        expect(&rt, is_active(word, active), word);
    }
    expect(&rt, ActiveWord::unpack(63).is_none(), 63);
}

/// Whether a head is packed into this word, and what is unpacked from there has this top and this tag.
fn is_head(head: Head, word: u64, top: u16, tag: u64) -> bool {
    let found = Head::unpack(word);
    head.pack() == word && found.top() == top && found.tag() == tag
}

#[test]
fn heads(rt: HostRuntime) {
    expect(&rt, is_head(Head::new(3, 5), 3 + 5 * 65_536, 3, 5), 0);
}

/// Whether this prefix is packed into this word, and is unpacked from there.
fn is_prefix(word: u64, prefix: Prefix) -> bool {
    match Prefix::unpack(word) {
        Some(found) => found == prefix && found.pack() == word,
        None => false,
    }
}

#[test]
fn prefixes(rt: HostRuntime) {
    expect(&rt, is_prefix(14, Prefix::Small { desc: 7 }), 14);
    expect(&rt, is_prefix(129, Prefix::Large { units: 64 }), 129);
    expect(&rt, Prefix::unpack(1).is_none(), 1);
    expect(&rt, Prefix::unpack(131).is_none(), 131);
    expect(&rt, link_of(5 * 2048 + 3) == 3, 3);
}

/// Whether the information is packed into this word, and is unpacked from there.
fn is_info(info: Info, word: u64) -> bool {
    match Info::unpack(word) {
        Some(found) => found == info && info.pack() == word,
        None => false,
    }
}

/// Whether the information is of this frame, heap and class.
fn tells(info: Info, frame: u16, heap: u8, class: u8) -> bool {
    info.frame() == frame && info.heap() == heap && info.class() == class
}

#[test]
fn infos(rt: HostRuntime) {
    let word = 4095 + 15 * 65_536 + 10 * 16_777_216;
    let info = Info::new(4095, 15, 10);
    expect(&rt, is_info(info, word), word);
    expect(&rt, tells(info, 4095, 15, 10), 0);
    expect(&rt, Info::unpack(4096).is_none(), 4096);
    expect(&rt, Info::unpack(1 << 32).is_none(), 1 << 32);
}

/// Whether this shelf is packed into this word, and is unpacked from there.
fn is_shelf(word: u64, shelf: ShelfWord) -> bool {
    match ShelfWord::unpack(word) {
        Some(found) => found == shelf && found.pack() == word,
        None => false,
    }
}

/// The shelf on which this block lies.
fn block(place: u32, need: Need) -> ShelfWord {
    ShelfWord::Block { place, need }
}

#[test]
fn shelf_words(rt: HostRuntime) {
    expect(&rt, is_shelf(524_434, block(4096, Need::Large(2))), 524_434);
    expect(&rt, is_shelf(131, block(0, Need::Small(3))), 131);
    expect(&rt, is_shelf(0, ShelfWord::Nothing), 0);
    for word in [128 + 16 + 65, 128 + 16 + 1, 128 + 11] {
        expect(&rt, ShelfWord::unpack(word).is_none(), word);
    }
}
