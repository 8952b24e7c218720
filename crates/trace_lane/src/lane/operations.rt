//! How each operation begins, and goes on by answers.

ghost use Rattle.std.specs.Prelude.{ℕ, ◌≡◌, ◌<◌, length};
ghost use Rattle.trace_text.specs.Traces.{IsOp};
ghost use Rattle.trace_text.specs.declared.limits.TheConstants.{REGISTERS};
ghost use Rattle.trace_text.specs.declared.trace.Op.TheVariants as op;
ghost use Rattle.trace_lane.specs.Made.{Begins, GoesOn, IsAnswer};

use super::registers::{end_with, held_at, is_full, put_in, take_out, unasked};
use crate::request::{Answer, Next, Request};
use lane_outcomes::outcome::Outcome;
use step_machine::token::Token;
use trace_text::trace::Op;

/// Begins the operation: its first request, or its outcome where it has none.
#[inline(always)]
pub(super) fn begin<B: Token + Drop>(registers: &mut Vec<Option<B>>, operation: Op) -> Next<B>
    requires operation { IsOp operation }
    requires size { length registers.old.items ≡ REGISTERS }
    ensures size { length registers.new.items ≡ REGISTERS }
    ensures begun { Begins B.place_of B.need_of operation registers.old.items result registers.new.items }
{
    match operation {
        Op::Alloc { r, need, .. } => {
            if is_full(registers, r) {
                Next::Told(Outcome::Skipped)
            } else {
                Next::Ask(Request::Allocate { need })
            }
        }
        Op::Free { r } => match take_out(registers, r) {
            Some(block) => Next::Ask(Request::Free(block)),
            None => Next::Told(Outcome::Skipped),
        },
        Op::Fill { r, v } => match take_out(registers, r) {
            Some(block) => Next::Ask(Request::Fill { block, from: v }),
            None => Next::Told(Outcome::Skipped),
        },
        Op::Check { r } => match take_out(registers, r) {
            Some(block) => Next::Ask(Request::Sum(block)),
            None => Next::Told(Outcome::Skipped),
        },
        Op::Put { r, shelf } => match take_out(registers, r) {
            Some(block) => Next::Ask(Request::Put { block, shelf }),
            None => Next::Told(Outcome::Skipped),
        },
        Op::Take { r, shelf } => {
            if is_full(registers, r) {
                Next::Told(Outcome::Skipped)
            } else {
                Next::Ask(Request::Take { shelf })
            }
        }
        Op::Resize { r, need } => match unasked(registers, r, need) {
            Some(outcome) => Next::Told(outcome),
            None => Next::Ask(Request::Allocate { need }),
        },
    }
}

/// Goes on by what a request came to: the operation's next request, or its outcome.
#[inline(always)]
pub(super) fn go_on<B: Token + Drop>(
    registers: &mut Vec<Option<B>>,
    operation: Op,
    answer: Answer<B>,
) -> Next<B>
    requires operation { IsOp operation }
    requires size { length registers.old.items ≡ REGISTERS }
    requires ready { IsAnswer B.place_of B.need_of operation registers.old.items answer }
    ensures size { length registers.new.items ≡ REGISTERS }
    ensures gone { GoesOn B.place_of B.need_of operation registers.old.items answer result registers.new.items }
{
    match operation {
        Op::Alloc { r, v, .. } => go_on_alloc(registers, r, v, answer),
        Op::Free { .. } => match answer {
            Answer::Freed => Next::Told(Outcome::Freed),
            _ => unreachable!(),
        },
        Op::Fill { r, .. } => match answer {
            Answer::Filled(block) => end_with(registers, r, block, Outcome::Filled),
            _ => unreachable!(),
        },
        Op::Check { r } => match answer {
            Answer::Summed { block, total } => end_with(registers, r, block, Outcome::Sum(total)),
            _ => unreachable!(),
        },
        Op::Put { r, .. } => match answer {
            Answer::Put => Next::Told(Outcome::Put),
            Answer::Full(block) => end_with(registers, r, block, Outcome::ShelfFull),
            _ => unreachable!(),
        },
        Op::Take { r, .. } => match answer {
            Answer::Got(block) => {
                let words = block.words();
                let place = block.place();
                let need = block.need();
                end_with(registers, r, block, Outcome::Took { words, place, need })
            }
            Answer::Empty => Next::Told(Outcome::ShelfEmpty),
            _ => unreachable!(),
        },
        Op::Resize { r, .. } => go_on_resize(registers, r, answer),
    }
}

/// The block that an allocation is given is filled, and goes into the register.
#[inline(always)]
fn go_on_alloc<B: Token + Drop>(
    registers: &mut Vec<Option<B>>,
    r: u16,
    v: u64,
    answer: Answer<B>,
) -> Next<B>
    requires register { r < length registers.old.items }
    requires ready { (need : ℕ) × IsAnswer B.place_of B.need_of (op.Alloc r need v) registers.old.items answer }
    ensures size { length registers.new.items ≡ length registers.old.items }
    ensures gone { (need : ℕ) → GoesOn B.place_of B.need_of (op.Alloc r need v) registers.old.items answer result registers.new.items }
{
    match answer {
        Answer::Given(block) => Next::Ask(Request::Fill { block, from: v }),
        Answer::Filled(block) => {
            let words = block.words();
            let place = block.place();
            end_with(registers, r, block, Outcome::Given { words, place })
        }
        Answer::Refused => Next::Told(Outcome::Refused),
        Answer::Spent => Next::Told(Outcome::Spent),
        _ => unreachable!(),
    }
}

/// The words of a resize's old block are copied into the one that is given, which goes into the register, and then
/// the old one is freed.
#[inline(always)]
fn go_on_resize<B: Token + Drop>(
    registers: &mut Vec<Option<B>>,
    r: u16,
    answer: Answer<B>,
) -> Next<B>
    requires register { r < length registers.old.items }
    requires ready { (need : ℕ) × IsAnswer B.place_of B.need_of (op.Resize r need) registers.old.items answer }
    ensures size { length registers.new.items ≡ length registers.old.items }
    ensures gone { (need : ℕ) → GoesOn B.place_of B.need_of (op.Resize r need) registers.old.items answer result registers.new.items }
{
    match answer {
        Answer::Given(to) => match take_out(registers, r) {
            Some(from) => Next::Ask(Request::Copy { from, to }),
            None => unreachable!(),
        },
        Answer::Copied { from, to } => {
            put_in(registers, r, to);
            Next::Ask(Request::Free(from))
        }
        Answer::Freed => {
            let held = held_at(registers, r);
            Next::Told(Outcome::Resized {
                words: held.words,
                place: held.place,
            })
        }
        Answer::Refused => Next::Told(Outcome::Refused),
        Answer::Spent => Next::Told(Outcome::Spent),
        _ => unreachable!(),
    }
}
