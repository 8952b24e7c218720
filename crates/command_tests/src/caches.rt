//! The command on lanes that run through caches. Expected values are worked by hand.

use crate::running::{Left, Told, all_are_written};
use command_line::status::REPORTED;
use std::test::Fail;

/// A magazine for one block.
const OF_ONE: &[(&str, &str)] = &[
    // It keeps the first of two; the other goes back to the heap.
    (
        "heap 4 1 0\nlane\na 0 1 1\na 1 1 2\nf 0\nf 1\na 0 1 3\na 1 1 4\nend\n",
        "heap 4 1 0 lanes 1\nlane 0\ngiven 1\ngiven 1\nfreed\nfreed\ngiven 1\ngiven 1\nlive 2 words 2\nhits 1\n",
    ),
    // Each lane has magazines of its own.
    (
        "heap 4 2 0\nlane\na 0 1 1\nf 0\nlane\na 0 1 1\nf 0\nend\n",
        "heap 4 2 0 lanes 2\nlane 0\ngiven 1\nfreed\nlane 1\ngiven 1\nfreed\nlive 0 words 0\nhits 0\n",
    ),
];

/// A resize is served too, and its old block kept: the first allocation of 3 words is served by the block
/// that the resize to 7 words left, and that of 7 words by the block of the second resize.
const OF_TWO: &[(&str, &str)] = &[(
    "heap2 4 1 0\nlane\na 0 3 1\nr 0 7\na 1 3 2\nr 0 3\na 2 7 3\nc 0\nend\n",
    "heap2 4 1 0 lanes 1\nlane 0\ngiven 3\nresized 7\ngiven 3\nresized 3\ngiven 7\nsum 6\nlive 3 words 13\nhits 2\n",
)];

/// A lane's second allocation is given the block that it has freed, and filled again.
const OF_SIXTEEN: &[(&str, &str)] = &[(
    "heap 4 1 0\nlane\na 0 1 5\nf 0\na 0 1 6\nc 0\nf 0\nend\n",
    "heap 4 1 0 lanes 1\nlane 0\ngiven 1\nfreed\ngiven 1\nsum 6\nfreed\nlive 0 words 0\nhits 1\n",
)];

#[test]
fn caches_are_told_with_their_hits(rt: HostRuntime) -> Result<(), Fail> {
    let ends: Told = (REPORTED, Left::Shared);
    all_are_written(&rt, "cache 1", ends, OF_ONE)?;
    all_are_written(&rt, "cache 2", ends, OF_TWO)?;
    all_are_written(&rt, "cache 16", ends, OF_SIXTEEN)
}
