//! The registers of a lane.

ghost use Rattle.std.specs.Prelude.{◌≡◌, ◌<◌, ◌↔◌, length, Some, None, slice_set, IsTrue, IsSome, IfSome};
ghost use Rattle.std.specs.List.{slice_index_or};
ghost use Rattle.std.specs.Option.{option_map};
ghost use Rattle.trace_lane.specs.Made.{IsTakenOut, IsUnasked, held_there};
ghost use Rattle.trace_lane.specs.Paths.{held_blocks, held_by};
ghost use Rattle.trace_lane.specs.declared.request.Next.TheVariants as next;

use crate::request::Next;
use heap_geometry::need::{Need, class_of};
use lane_outcomes::outcome::Outcome;
use lane_outcomes::registers::HeldBlock;
use step_machine::token::Token;

/// Whether the register holds a block.
pub(super) fn is_full<B>(registers: &Vec<Option<B>>, r: u16) -> bool
    requires { r < length registers.now.items }
    ensures { IsTrue result ↔ IsSome (slice_index_or registers.now.items r None) }
{
    registers[usize::from(r)].is_some()
}

/// The block of a full register, by its numbers.
pub(super) fn held_at<B: Token>(registers: &Vec<Option<B>>, r: u16) -> HeldBlock
    requires { r < length registers.now.items }
    ensures { result ≡ held_there (option_map (held_by B.place_of B.need_of) (slice_index_or registers.now.items r None)) }
{
    match &registers[usize::from(r)] {
        Some(block) => HeldBlock {
            place: block.place(),
            words: block.words(),
            need: block.need(),
        },
        None => HeldBlock {
            place: 0,
            words: 0,
            need: Need::TooLarge,
        },
    }
}

/// Empties the register, and hands back what it held.
pub(super) fn take_out<B: Token + Drop>(registers: &mut Vec<Option<B>>, r: u16) -> Option<B>
    requires { r < length registers.old.items }
    ensures found { result ≡ slice_index_or registers.old.items r None }
    ensures emptied { registers.new.items ≡ slice_set registers.old.items r None }
    ensures taken { IfSome result (λ block.
        IsTakenOut (held_blocks B.place_of B.need_of registers.old.items) (held_blocks B.place_of B.need_of registers.new.items) r (held_by B.place_of B.need_of block)) }
{
    registers[usize::from(r)].take()
}

/// Puts a block into the register.
pub(super) fn put_in<B: Token + Drop>(registers: &mut Vec<Option<B>>, r: u16, block: B)
    requires { r < length registers.old.items }
    ensures size { length registers.new.items ≡ length registers.old.items }
    ensures held { held_blocks B.place_of B.need_of registers.new.items
        ≡ slice_set (held_blocks B.place_of B.need_of registers.old.items) r (Some (held_by B.place_of B.need_of block)) }
{
    registers[usize::from(r)] = Some(block);
}

/// Puts a block into the register, and tells the outcome with which its operation ends.
pub(super) fn end_with<B: Token + Drop>(
    registers: &mut Vec<Option<B>>,
    r: u16,
    block: B,
    outcome: Outcome,
) -> Next<B>
    requires { r < length registers.old.items }
    ensures told { result ≡ next.Told outcome }
    ensures size { length registers.new.items ≡ length registers.old.items }
    ensures held { held_blocks B.place_of B.need_of registers.new.items
        ≡ slice_set (held_blocks B.place_of B.need_of registers.old.items) r (Some (held_by B.place_of B.need_of block)) }
{
    put_in(registers, r, block);
    Next::Told(outcome)
}

/// The outcome of a resize that asks for no block: the register is empty, or its block serves the need.
pub(super) fn unasked<B: Token>(registers: &Vec<Option<B>>, r: u16, need: u32) -> Option<Outcome>
    requires { r < length registers.now.items }
    ensures { IsUnasked (option_map (held_by B.place_of B.need_of) (slice_index_or registers.now.items r None)) need result }
{
    let Some(block) = &registers[usize::from(r)] else {
        return Some(Outcome::Skipped);
    };
    if block.need() == class_of(need) {
        Some(Outcome::Kept {
            words: block.words(),
            place: block.place(),
        })
    } else {
        None
    }
}
