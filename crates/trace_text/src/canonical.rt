//! The lines of operations as they are printed, read where they stand in a text.

ghost use Rattle.std.specs.Prelude.{◌≡◌, ◌≢◌, ◌++◌, ◌∷◌, ◌+◌, ◌-◌, ◌<◌, ◌≤◌, List, [], drop, length, slice_index, take, true, IfOk, IfSome, IsTrue};
ghost use Rattle.std.specs.Char.{is_ascii_digit};
ghost use Rattle.std.specs.List.{list_all};
ghost use Rattle.std.specs.Str.Parse.{digits_value};
ghost use Rattle.trace_text.specs.Canonical.{AreNumbersAt, BeginsWithOps, EndsLine, IsNumberAt, IsOpAt};
ghost use Rattle.trace_text.specs.declared.limits.TheConstants.{LINE_FEED, MAX_INPUT, SPACE, ZERO};
ghost use Rattle.trace_text.specs.declared.trace.Op.{Op};

use crate::kinds::{Kinds, Numbers};
use crate::limits::{LINE_FEED, SPACE, ZERO};
use crate::numbers::SHORT;
use crate::trace::{Op, Version};
use std::alloc::AllocError;

/// The digits from a place on, of which a first 0 is the only one: the number that they write, if
/// they are few, and the place behind them. The line's end is no digit, so no place is past it.
#[inline(always)]
fn digits_at(text: &[u8], start: usize) -> (u64, usize)
    requires ended { EndsLine text.now }
    requires within { start < length text.now }
    ensures place { (start ≤ result.1) × (result.1 < length text.now) }
    ensures digits { list_all is_ascii_digit (take (result.1 - start) (drop start text.now)) ≡ true }
    ensures zero { slice_index text.now start ≡ ZERO → result.1 ≡ start + 1 }
    ensures value { result.1 - start ≤ 19 → result.0 ≡ digits_value 10 (take (result.1 - start) (drop start text.now)) }
{
    if text[start] == ZERO {
        return (0, start + 1);
    }
    let mut n: u64 = 0;
    let mut at = start;
    while text[at].is_ascii_digit() {
        n = n
            .wrapping_mul(10)
            .wrapping_add(u64::from(text[at]) - u64::from(ZERO));
        at += 1;
    }
    (n, at)
}

/// The number that stands from a place on in decimal, up to this byte, and the place behind the byte.
#[inline(always)]
fn number_at(text: &[u8], start: usize, end: u8) -> Option<(u64, usize)>
    requires ended { EndsLine text.now }
    requires within { start < length text.now }
    ensures number { IfSome result (λ p. IsNumberAt text.now start end p.0 p.1) }
    ensures inside { IfSome result (λ p. end ≢ LINE_FEED → p.1 < length text.now) }
{
    let (n, at) = digits_at(text, start);
    if at == start || at - start > SHORT || text[at] != end {
        return None;
    }
    Some((n, at + 1))
}

/// The same, of a number up to this one.
#[inline(always)]
fn number_up_to(text: &[u8], start: usize, end: u8, most: u64) -> Option<(u64, usize)>
    requires ended { EndsLine text.now }
    requires within { start < length text.now }
    ensures number { IfSome result (λ p. IsNumberAt text.now start end p.0 p.1) }
    ensures inside { IfSome result (λ p. end ≢ LINE_FEED → p.1 < length text.now) }
    ensures most { IfSome result (λ p. p.0 ≤ most) }
{
    let (n, after) = number_at(text, start, end)?;
    if n > most {
        return None;
    }
    Some((n, after))
}

/// The numbers of these kinds that stand from a place on, a space between two of them and the line's
/// end behind the last, and the place behind the line.
#[inline(always)]
fn numbers_at(kinds: Kinds, text: &[u8], start: usize) -> Option<(Numbers, usize)>
    requires ended { EndsLine text.now }
    requires within { start < length text.now }
    ensures { IfSome result (λ p. AreNumbersAt kinds text.now start p.0 p.1) }
{
    match kinds {
        Kinds::One(a) => {
            let (first, after) = number_up_to(text, start, LINE_FEED, a.most())?;
            Some((
                Numbers {
                    first,
                    second: 0,
                    third: 0,
                },
                after,
            ))
        }
        Kinds::Two(a, b) => {
            let (first, at) = number_up_to(text, start, SPACE, a.most())?;
            let (second, after) = number_up_to(text, at, LINE_FEED, b.most())?;
            Some((
                Numbers {
                    first,
                    second,
                    third: 0,
                },
                after,
            ))
        }
        Kinds::Three(a, b, c) => {
            let (first, at) = number_up_to(text, start, SPACE, a.most())?;
            let (second, at) = number_up_to(text, at, SPACE, b.most())?;
            let (third, after) = number_up_to(text, at, LINE_FEED, c.most())?;
            Some((
                Numbers {
                    first,
                    second,
                    third,
                },
                after,
            ))
        }
    }
}

/// The operation with this letter whose line stands at a place but for the letter and the space
/// behind it, and the place behind the line.
#[inline(always)]
fn op_with(version: Version, letter: u8, text: &[u8], start: usize) -> Option<(Op, usize)>
    requires ended { EndsLine text.now }
    requires within { start < length text.now }
    ensures { IfSome result (λ p. IsOpAt version (letter ∷ SPACE ∷ []) text.now start p.0 p.1) }
{
    let kinds = Op::kinds(version, letter)?;
    let (numbers, after) = numbers_at(kinds, text, start)?;
    let op = Op::made(letter, numbers)?;
    Some((op, after))
}

/// The same, where it is not known beforehand which letter it is.
fn any_op_with(version: Version, letter: u8, text: &[u8], start: usize) -> Option<(Op, usize)>
    requires ended { EndsLine text.now }
    requires within { start < length text.now }
    ensures { IfSome result (λ p. IsOpAt version (letter ∷ SPACE ∷ []) text.now start p.0 p.1) }
{
    op_with(version, letter, text, start)
}

/// The operation whose line, as it is printed, stands at a place, and the place behind the line. A
/// letter that stands here has code of its own, which is faster; any other is read as well.
#[inline(always)]
fn op_at(version: Version, text: &[u8], start: usize) -> Option<(Op, usize)>
    requires ended { EndsLine text.now }
    requires within { start + 2 < length text.now }
    ensures { IfSome result (λ p. IsOpAt version [] text.now start p.0 p.1) }
{
    if text[start + 1] != SPACE {
        return None;
    }
    match text[start] {
        b'a' => op_with(version, b'a', text, start + 2),
        b'f' => op_with(version, b'f', text, start + 2),
        b'c' => op_with(version, b'c', text, start + 2),
        b'w' => op_with(version, b'w', text, start + 2),
        b'p' => op_with(version, b'p', text, start + 2),
        b't' => op_with(version, b't', text, start + 2),
        b'r' => op_with(version, b'r', text, start + 2),
        letter => any_op_with(version, letter, text, start + 2),
    }
}

/// Whether the last byte ends a line.
fn ends_line(text: &[u8]) -> bool
    ensures { IsTrue result → EndsLine text.now }
{
    match text.len() {
        0 => false,
        len => text[len - 1] == LINE_FEED,
    }
}

/// Reads operations as long as their lines are as printed: how many there are, and what is left
/// behind them.
pub(crate) fn read_ops<'a>(
    version: Version,
    ops: &mut Vec<Op>,
    text: &'a [u8],
) -> Result<(u32, &'a [u8]), AllocError>
    requires { length text.now ≤ MAX_INPUT }
    ensures ops { IfOk result (λ p. (more : List Op) × (ops.new.items ≡ ops.old.items ++ more) × (length more ≡ p.0) × BeginsWithOps version text.now more p.1.now) }
    ensures shorter { IfOk result (λ p. p.0 + length p.1.now ≤ length text.now) }
{
    if !ends_line(text) {
        return Ok((0, text));
    }
    let mut at = 0;
    let mut count = 0;
    while at + 2 < text.len()
        && let Some((op, after)) = op_at(version, text, at)
    {
        ops.push(op)?;
        count += 1;
        at = after;
    }
    Ok((count, &text[at..]))
}
