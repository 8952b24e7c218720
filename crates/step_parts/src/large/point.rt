//! The points at which a caller stands with a large block, a usable word or a shelf.

ghost use Rattle.std.specs.Prelude.{None, if◌then◌else◌, ◌≡◌};
ghost use Rattle.step_parts.specs.large.Points.{plan_large_of, after_run_prefix, after_shelf, after_take, first_wanted, is_on_word, settle_large_of};
ghost use Rattle.packed_words.specs.Prefix.{prefix_of};
ghost use Rattle.packed_words.specs.Shelf.{shelf_of};
ghost use Rattle.word_table.specs.Onwards.{exit_by, point_by};

use crate::large::exit::LargeExit;
use crate::large::run::UnitRun;
use crate::large::units::other_bits;
use crate::large::want::Want;
use crate::large::words::{empty_shelf, payload_name, run_prefix, shelf_with, units_taken};
use heap_geometry::need::Need;
use heap_geometry::place::place_of_unit;
use packed_words::prefix::Prefix;
use packed_words::shelf::ShelfWord;
use word_table::action::{Action, Found};
use word_table::name::WordName;
use word_table::onward::Onward;

/// A caller's next step.
///
/// `place` is the arena word of a block's prefix word, `index` counts its usable words from 0, and
/// `need` says which blocks the block is one of.
#[derive(Clone, Copy)]
pub enum LargePoint {
    /// Load which units are taken.
    LoadUnits { want: Want },
    /// Take the lowest free run, or find again that there is none, by the bits that were read.
    TakeRun { want: Want, bits: u64 },
    /// Store the prefix word of the run that is handed out.
    StoreRunPrefix { place: u32, run: UnitRun },
    /// Load the prefix word of the run that is freed.
    LoadRunPrefix { place: u32, run: UnitRun },
    /// Give the units of the run back.
    FreeRun { place: u32, run: UnitRun },
    /// Write a usable word of a block.
    StoreWord { place: u32, index: u32, value: u64 },
    /// Read a usable word of a block.
    LoadWord { place: u32, index: u32 },
    /// Put a block on the shelf, where nothing lies on it.
    PutBlock { shelf: u8, place: u32, need: Need },
    /// Load what lies on the shelf.
    LoadShelf { shelf: u8 },
    /// Take the block that lay on the shelf.
    TakeBlock { shelf: u8, place: u32, need: Need },
    /// Find again that nothing lies on the shelf.
    ConfirmNothing { shelf: u8 },
}

/// The action of a point.
#[inline(always)]
pub fn plan_large(point: &LargePoint) -> Action
    ensures { result ≡ plan_large_of point.now }
{
    match *point {
        LargePoint::LoadUnits { .. } => Action::Load(WordName::Units),
        LargePoint::TakeRun { want, bits } => {
            Action::Cas(WordName::Units, bits, units_taken(want, bits))
        }
        LargePoint::StoreRunPrefix { place, run } => {
            Action::Store(WordName::Arena(place), run_prefix(run.units()))
        }
        LargePoint::LoadRunPrefix { place, .. } => Action::Load(WordName::Arena(place)),
        LargePoint::FreeRun { run, .. } => {
            Action::And(WordName::Units, other_bits(run.first(), run.units()))
        }
        LargePoint::StoreWord {
            place,
            index,
            value,
        } => Action::Store(payload_name(place, index), value),
        LargePoint::LoadWord { place, index } => Action::Load(payload_name(place, index)),
        LargePoint::PutBlock { shelf, place, need } => Action::Cas(
            WordName::Shelf(shelf),
            empty_shelf(),
            shelf_with(place, need),
        ),
        LargePoint::LoadShelf { shelf } => Action::Load(WordName::Shelf(shelf)),
        LargePoint::TakeBlock { shelf, place, need } => Action::Cas(
            WordName::Shelf(shelf),
            shelf_with(place, need),
            empty_shelf(),
        ),
        LargePoint::ConfirmNothing { shelf } => {
            Action::Cas(WordName::Shelf(shelf), empty_shelf(), empty_shelf())
        }
    }
}

/// Goes on to the point after what the action found; where the caller leaves, it answers by which
/// exit, and the point stays as it was. A word that is not expected leaves the point as it is: one
/// that is the prefix of no live run, or the word of no shelf.
#[inline(always)]
pub fn settle_large(at: &mut LargePoint, found: Found) -> Option<LargeExit>
    ensures exit { result ≡ exit_by (settle_large_of at.old found) }
    ensures point { at.new ≡ point_by at.old (settle_large_of at.old found) }
{
    let from = *at;
    match from {
        LargePoint::LoadUnits { want } => {
            *at = LargePoint::TakeRun {
                want,
                bits: found.value,
            };
        }
        LargePoint::TakeRun { want, bits } => {
            if found.won {
                return after_take(want, bits).follow(at);
            }
            *at = LargePoint::LoadUnits { want };
        }
        LargePoint::StoreRunPrefix { place, run } => {
            return Some(LargeExit::GivenRun { place, run });
        }
        LargePoint::LoadRunPrefix { place, run } => {
            *at = after_run_prefix(place, run, found.value);
        }
        LargePoint::FreeRun { .. } => return Some(LargeExit::FreedRun),
        LargePoint::StoreWord { .. } | LargePoint::LoadWord { .. } => {
            return exit_on_word(&from, found);
        }
        LargePoint::PutBlock { .. } => {
            return Some(if found.won {
                LargeExit::PutDone
            } else {
                LargeExit::ShelfFull { found: found.value }
            });
        }
        LargePoint::LoadShelf { shelf } => *at = after_shelf(shelf, found.value),
        LargePoint::TakeBlock { place, need, .. } => {
            return Some(if found.won {
                LargeExit::Got { place, need }
            } else {
                missed(shelf_with(place, need), found)
            });
        }
        LargePoint::ConfirmNothing { .. } => {
            return Some(if found.won {
                LargeExit::NothingThere
            } else {
                missed(empty_shelf(), found)
            });
        }
    }
    None
}

/// The exit of a call on a usable word, which ends with its one step; `None` at every other point.
/// Most steps of a busy program are such ones, so that who settles a step can ask for them first.
#[inline(always)]
pub fn exit_on_word(at: &LargePoint, found: Found) -> Option<LargeExit>
    ensures { result ≡ (if is_on_word at.now then exit_by (settle_large_of at.now found) else None) }
{
    match *at {
        LargePoint::StoreWord { .. } => Some(LargeExit::Wrote),
        LargePoint::LoadWord { .. } => Some(LargeExit::Word { value: found.value }),
        _ => None,
    }
}

/// From a look for a run, which was made with these bits.
#[inline(always)]
fn after_take(want: Want, bits: u64) -> Onward<LargePoint, LargeExit>
    ensures { result ≡ after_take want (first_wanted want bits) }
{
    match want.first(bits) {
        Some(first) => Onward::Stays(LargePoint::StoreRunPrefix {
            place: place_of_unit(want.geometry().frames, u32::from(first)),
            run: UnitRun::new(first, want.units()),
        }),
        None => Onward::Leaves(LargeExit::NoRun),
    }
}

/// From the prefix word of the run that is freed.
fn after_run_prefix(place: u32, run: UnitRun, word: u64) -> LargePoint
    ensures { result ≡ after_run_prefix place run (prefix_of word) }
{
    match Prefix::unpack(word) {
        Some(Prefix::Large { .. }) => LargePoint::FreeRun { place, run },
        _ => LargePoint::LoadRunPrefix { place, run },
    }
}

/// From a shelf's word.
fn after_shelf(shelf: u8, word: u64) -> LargePoint
    ensures { result ≡ after_shelf shelf (shelf_of word) }
{
    match ShelfWord::unpack(word) {
        Some(ShelfWord::Nothing) => LargePoint::ConfirmNothing { shelf },
        Some(ShelfWord::Block { place, need }) => LargePoint::TakeBlock { shelf, place, need },
        None => LargePoint::LoadShelf { shelf },
    }
}

/// From a lost exchange of a shelf's word.
fn missed(expected: u64, found: Found) -> LargeExit
    ensures { result ≡ LargeExit.Missed expected found.value }
{
    LargeExit::Missed {
        expected,
        found: found.value,
    }
}
