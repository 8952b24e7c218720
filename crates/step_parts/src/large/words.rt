//! The numbers and names of the words that a step writes.

ghost use Rattle.std.specs.Prelude.{◌≡◌};
ghost use Rattle.packed_words.specs.Prefix.{prefix_word};
ghost use Rattle.packed_words.specs.Shelf.{need_code, shelf_word};
ghost use Rattle.packed_words.specs.declared.prefix.Prefix.{Prefix};
ghost use Rattle.packed_words.specs.declared.shelf.ShelfWord.{ShelfWord};
ghost use Rattle.step_parts.specs.large.Points.{first_wanted, payload_name, units_taken};

use crate::large::units::with_run;
use crate::large::want::Want;
use heap_geometry::need::Need;
use packed_words::shelf::LARGE_CODE;
use packed_words::widths::{CODE_BITS, KIND_BITS};
use word_table::name::WordName;

/// The name of a usable word of a block.
pub fn payload_name(place: u32, index: u32) -> WordName
    ensures { result ≡ payload_name place index }
{
    WordName::Arena(place.wrapping_add(1).wrapping_add(index))
}

/// The units after the lowest free run is taken, or as they are where there is none.
pub fn units_taken(want: Want, bits: u64) -> u64
    ensures { result ≡ units_taken bits want.units (first_wanted want bits) }
{
    match want.first(bits) {
        Some(first) => with_run(bits, first, want.units()),
        None => bits,
    }
}

/// The prefix word of a live run of so many units.
#[tactic(auto, unfolding(packed_words::specs::Prefix::prefix_word))]
pub fn run_prefix(units: u8) -> u64
    ensures { result ≡ prefix_word (Prefix.Large units) }
{
    (u64::from(units) << KIND_BITS) + 1
}

/// The word of a shelf on which nothing lies.
#[tactic(auto, unfolding(packed_words::specs::Shelf::shelf_word))]
pub fn empty_shelf() -> u64
    ensures { result ≡ shelf_word ShelfWord.Nothing }
{
    0
}

/// The word of a shelf on which a block lies.
#[tactic(auto, unfolding(packed_words::specs::Shelf::shelf_word))]
pub fn shelf_with(place: u32, need: Need) -> u64
    ensures { result ≡ shelf_word (ShelfWord.Block place need) }
{
    need_code(need) + (u64::from(place) + 1) * (1 << CODE_BITS)
}

/// The code of a need.
fn need_code(need: Need) -> u64
    ensures { result ≡ need_code need }
{
    match need {
        Need::Small(class) => u64::from(class),
        Need::Large(units) => u64::from(LARGE_CODE) + u64::from(units),
        Need::TooLarge => u64::from(LARGE_CODE),
    }
}
