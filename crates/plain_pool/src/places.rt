//! Which places are free among stored blocks, and which block lies on a shelf.
//!
//! Each search goes over the stored blocks once.

ghost use Rattle.std.specs.Prelude.{ℕ, ◌≡◌, ◌≢◌, ◌<◌, ◌≤◌, ◌↔◌, ◌⊎◌, Some, IfSome, IfNone, IsSomeAnd, length};
ghost use Rattle.heap_geometry.specs.Place.{IsBlockPlace, frame_of};
ghost use Rattle.pool_model.specs.declared.owner.Owner.TheVariants.{Shelf};
ghost use Rattle.plain_pool.specs.declared.live_block.LiveBlock.{LiveBlock as Stored};
ghost use Rattle.plain_pool.specs.Stored.{IsStored, HoldsStored};
ghost use Rattle.plain_pool.specs.Plain.{IsLeast};
ghost use Rattle.plain_pool.specs.Search.{IsUnstored, IsPlaced, HoldsOneClass, IsOpenBeside, Reaches, ReachesAround, IsOpenIn, IsWithinUnits, IsRunOf, TakesUnit, IsMarked};
ghost use Rattle.heap_geometry.specs.declared.limits.TheConstants.{CLASSES, MAX_FRAMES, MAX_UNITS};

use crate::live_block::LiveBlock;
use crate::marks::{mark, mark_one};
use heap_geometry::limits::{FRAME_WORDS, MAX_FRAMES, MAX_UNITS};
use heap_geometry::need::{Need, block_count};
use heap_geometry::place::{place_of, split_place, unit_of};
use pool_model::owner::Owner;
use std::collections::BTreeMap;

/// The stored blocks, by their places.
pub type Blocks = BTreeMap<u32, LiveBlock>;

/// As many marks as the largest heap has frames.
pub const FRAME_MARKS: usize = MAX_FRAMES as usize;

/// As many marks as the largest heap has units.
pub const UNIT_MARKS: usize = MAX_UNITS as usize;

/// The place of the block on the shelf.
pub fn place_on_shelf(blocks: &Blocks, shelf: u8) -> Option<u32>
    ensures found { IfSome result (λ place.
        (block : Stored) × IsStored blocks.now place block × (block.owner ≡ Shelf shelf)) }
    ensures empty { IfNone result ((place : ℕ) (block : Stored)
        → IsStored blocks.now place block → block.owner ≢ Shelf shelf) }
{
    for (place, block) in blocks {
        if block.owner == Owner::Shelf(shelf) {
            return Some(*place);
        }
    }
    None
}

/// Marks the frames in which blocks are stored.
pub fn held_frames(blocks: &Blocks) -> [bool; FRAME_MARKS]
    ensures len { length result ≡ MAX_FRAMES }
    ensures held { (frame : ℕ) → frame < MAX_FRAMES
        → IsMarked result frame ↔ HoldsStored blocks.now frame }
{
    let mut held = [false; FRAME_MARKS];
    for (place, _) in blocks {
        mark_one(&mut held, (*place / FRAME_WORDS) as usize);
    }
    held
}

/// Marks the units that stored runs have, in an arena with so many frames.
pub fn taken_units(blocks: &Blocks, frames: u32) -> [bool; UNIT_MARKS]
    requires { IsWithinUnits blocks.now frames }
    ensures len { length result ≡ MAX_UNITS }
    ensures taken { (unit : ℕ) → unit < MAX_UNITS
        → IsMarked result unit ↔ TakesUnit blocks.now frames unit }
{
    let mut taken = [false; UNIT_MARKS];
    for (place, block) in blocks {
        let (first, count) = run_of(*place, block.need, frames);
        mark(&mut taken, first, count);
    }
    taken
}

/// The first unit of a block and how many units it has, none for a small one.
fn run_of(place: u32, need: Need, frames: u32) -> (usize, usize)
    ensures { IsRunOf frames need place result }
{
    match need {
        Need::Large(units) => {
            let first = unit_of(frames, place);
            (first as usize, usize::from(units))
        }
        Need::Small(_) | Need::TooLarge => (0, 0),
    }
}

/// The least place of the class where no block is stored, in a frame where one of the class is.
pub fn least_beside(blocks: &Blocks, class: u8) -> Option<u32>
    requires class { class < CLASSES }
    requires placed { IsPlaced blocks.now class }
    requires one_class { HoldsOneClass blocks.now class }
    ensures found { IfSome result (IsLeast (IsOpenBeside blocks.now class)) }
    ensures none { IfNone result ((place : ℕ) → ¬ IsOpenBeside blocks.now class place) }
{
    let mut least = None;
    for (place, block) in blocks {
        least = lesser_around(blocks, least, *place, block.need, class);
    }
    least
}

/// The least of the first place of a block's frame, the place behind the block and the least so far,
/// leaving out where blocks are stored. A block of another class leaves the least so far.
fn lesser_around(
    blocks: &Blocks,
    least: Option<u32>,
    place: u32,
    need: Need,
    class: u8,
) -> Option<u32>
    requires class { class < CLASSES }
    requires place { need ≡ Need.Small class → IsBlockPlace class place }
    ensures around { need ≡ Need.Small class → ReachesAround blocks.now result class place }
    ensures from { IfSome result (λ found. (least ≡ Some found)
        ⊎ ((need ≡ Need.Small class) × IsOpenIn blocks.now class (frame_of place) found)) }
    ensures lower { IfSome least (λ before. IsSomeAnd result (λ found. found ≤ before)) }
{
    if need != Need::Small(class) {
        return least;
    }
    let (frame, index) = split_place(place, class);
    let first = lesser_open(blocks, least, place_of(frame, class, 0));
    if index + 1 < block_count(class) {
        lesser_open(blocks, first, place_of(frame, class, index + 1))
    } else {
        first
    }
}

/// The lesser of a place and the least so far, leaving the place out where a block is stored there.
fn lesser_open(blocks: &Blocks, least: Option<u32>, place: u32) -> Option<u32>
    ensures reaches { Reaches blocks.now result place }
    ensures from { IfSome result (λ found.
        (least ≡ Some found) ⊎ ((found ≡ place) × IsUnstored blocks.now found)) }
    ensures lower { IfSome least (λ before. IsSomeAnd result (λ found. found ≤ before)) }
{
    match least {
        Some(before) if before <= place => least,
        _ => {
            if blocks.contains_key(&place) {
                least
            } else {
                Some(place)
            }
        }
    }
}
