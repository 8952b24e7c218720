//! Which blocks serve an allocation, and how many usable words they have.

use crate::expect::expect;
use heap_geometry::need::{Need, class_of, usable};

/// Whether these blocks serve an allocation of so many words, and have so many usable words.
fn serve(need: u32, blocks: Need, words: u32) -> bool {
    let found = class_of(need);
    found == blocks && usable(found) == words
}

/// Where a class or a run of units ends and the next begins.
#[test]
fn needs_at_their_boundaries(rt: HostRuntime) {
    let rows = [
        (0, Need::Small(0), 1),
        (1, Need::Small(0), 1),
        (2, Need::Small(1), 3),
        (3, Need::Small(1), 3),
        (1024, Need::Small(10), 2047),
        (2047, Need::Small(10), 2047),
        (2048, Need::Large(2), 4095),
        (4095, Need::Large(2), 4095),
        (4096, Need::Large(3), 6143),
        (131_071, Need::Large(64), 131_071),
        (131_072, Need::TooLarge, 0),
        (u32::MAX, Need::TooLarge, 0),
    ];
    for (need, blocks, words) in rows {
        expect(&rt, serve(need, blocks, words), u64::from(need));
    }
}
