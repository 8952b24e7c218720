//! The exits by which a caller leaves the stack of available descriptors or the hazard words.

use crate::hazard::held::Held;
use word_table::seat::Seat;

/// How a caller left the stack of available descriptors or the hazard words. No step is made here.
///
/// `held` is what the hazard words named.
#[derive(Clone, Copy)]
pub enum DescExit {
    /// The descriptor is taken.
    Got { seat: Seat, desc: u16 },
    /// The hazard word is 0.
    Cleared { seat: Seat },
    /// Every hazard word was read.
    Scanned { seat: Seat, held: Held },
    /// The descriptor is available again.
    Pushed { seat: Seat, desc: u16 },
}
