//! How the steps change a head.

ghost use Rattle.std.specs.Prelude.{◌≡◌};
ghost use Rattle.step_parts.specs.stack.Piles.{popped_head, pushed_head};

use packed_words::head::Head;
use packed_words::widths::{HEAD_TAG_BITS, TOP_BITS};

/// The head after a pop that leaves this on top.
pub fn popped_head(head: Head, below: u16) -> Head
    ensures { result ≡ popped_head head below }
{
    Head::new(below, (head.tag() + 1) % (1 << HEAD_TAG_BITS))
}

/// The head after a push of this index.
pub fn pushed_head(head: Head, index: u16) -> Head
    ensures { result ≡ pushed_head head index }
{
    Head::new(
        ((u32::from(index) + 1) % (1 << TOP_BITS)) as u16,
        head.tag(),
    )
}
