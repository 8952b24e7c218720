//! What the fields behind a word say.

ghost use Rattle.std.specs.Prelude.{◌≡◌, ◌∷◌, ◌<◌, ◌≤◌, Ok, IfOk, IfSome};
ghost use Rattle.std.specs.Option.{option_copied};
ghost use Rattle.trace_text.specs.declared.limits.TheConstants.{MAX_LANES};
ghost use Rattle.trace_text.specs.Causes.{TellsCause};
ghost use Rattle.trace_text.specs.Lines.{fields_of};
ghost use Rattle.trace_text.specs.Operations.{AreWithin, IsKind, maker_of};
ghost use Rattle.trace_text.specs.Said.{numeral_in, ranged, kind_of, some_in, none_in, one_in, two_in, three_in, heap_fields_in, limit_in, heap_numbers_in, numbers_in, op_by, op_of, order_in};

use crate::fault::Cause;
use crate::kinds::{Kind, Kinds, Numbers};
use crate::limits::ORDER_MOST;
use crate::lines::{field_to, first_field};
use crate::numbers::{SHORT, digits_number, first_digits, number};
use crate::trace::{Op, OrderRun, Version};

/// A field as a number.
#[tactic(auto, unfolding(crate::specs::Said::numeral_in))]
fn numeral(field: &[u8]) -> Result<u64, Cause>
    ensures { result ≡ numeral_in field.now }
{
    number(field).ok_or(Cause::BadNumber)
}

/// A number in its range, or this cause.
#[tactic(auto, unfolding(crate::specs::Said::ranged))]
pub(crate) fn ranged(cause: Cause, low: u64, high: u64, n: u64) -> Result<u64, Cause>
    ensures value { result ≡ ranged cause low high n }
    ensures within { IfOk result (λ m. m ≤ high) }
{
    if low <= n && n <= high {
        Ok(n)
    } else {
        Err(cause)
    }
}

/// A number that says something of this kind.
fn of_kind(kind: Kind, n: u64) -> Result<u64, Cause>
    ensures value { result ≡ kind_of kind n }
    ensures within { IfOk result (IsKind kind) }
{
    ranged(Cause::OutOfRange, 0, kind.most(), n)
}

/// The first field, and what is left behind it.
fn field(fields: &[u8]) -> Result<(&[u8], &[u8]), Cause>
    ensures { TellsCause (λ p. p.0.now ∷ fields_of p.1.now) result (some_in (fields_of fields.now)) }
{
    first_field(fields).ok_or(Cause::WrongFields)
}

/// The first field and its number, and what is left behind it, if the bytes begin with few digits
/// that are a number.
#[inline(always)]
#[tactic(auto, unfolding(crate::specs::Said::numeral_in))]
fn plain_number(bytes: &[u8]) -> Option<(&[u8], u64, &[u8])>
    ensures field { IfSome result (λ p. fields_of bytes.now ≡ p.0.now ∷ fields_of p.2.now) }
    ensures number { IfSome result (λ p. numeral_in p.0.now ≡ Ok p.1) }
{
    let (len, n) = first_digits(bytes);
    if len == 0 || len > SHORT {
        return None;
    }
    let (digits, rest) = field_to(bytes, len)?;
    Some((digits, digits_number(digits, n)?, rest))
}

/// No field behind the word.
pub(crate) fn none(fields: &[u8]) -> Result<(), Cause>
    ensures { TellsCause (λ _. tt) result (none_in (fields_of fields.now)) }
{
    match first_field(fields) {
        None => Ok(()),
        Some(_) => Err(Cause::WrongFields),
    }
}

/// The number that is the one field behind the word, whatever the bytes are.
#[cold]
#[tactic(auto, unfolding(crate::specs::Said::one_in))]
fn any_one(fields: &[u8]) -> Result<u64, Cause>
    ensures { result ≡ one_in (fields_of fields.now) }
{
    let (a, rest) = field(fields)?;
    none(rest)?;
    numeral(a)
}

/// The numbers that are the two fields behind the word, whatever the bytes are.
#[cold]
#[tactic(auto, unfolding(crate::specs::Said::two_in))]
fn any_two(fields: &[u8]) -> Result<(u64, u64), Cause>
    ensures { result ≡ two_in (fields_of fields.now) }
{
    let (a, rest) = field(fields)?;
    let (b, rest) = field(rest)?;
    none(rest)?;
    Ok((numeral(a)?, numeral(b)?))
}

/// The numbers that are the three fields behind the word, whatever the bytes are.
#[cold]
#[tactic(auto, unfolding(crate::specs::Said::three_in))]
fn any_three(fields: &[u8]) -> Result<(u64, u64, u64), Cause>
    ensures { result ≡ three_in (fields_of fields.now) }
{
    let (a, rest) = field(fields)?;
    let (b, rest) = field(rest)?;
    let (c, rest) = field(rest)?;
    none(rest)?;
    Ok((numeral(a)?, numeral(b)?, numeral(c)?))
}

/// The number that is the one field behind the word.
#[inline(always)]
fn one(fields: &[u8]) -> Result<u64, Cause>
    ensures { result ≡ one_in (fields_of fields.now) }
{
    if let Some((_, a, rest)) = plain_number(fields)
        && rest.is_empty()
    {
        return Ok(a);
    }
    any_one(fields)
}

/// The numbers that are the two fields behind the word.
fn two(fields: &[u8]) -> Result<(u64, u64), Cause>
    ensures { result ≡ two_in (fields_of fields.now) }
{
    if let Some((_, a, rest)) = plain_number(fields)
        && let Some((_, b, rest)) = plain_number(rest)
        && rest.is_empty()
    {
        return Ok((a, b));
    }
    any_two(fields)
}

/// The numbers that are the three fields behind the word.
fn three(fields: &[u8]) -> Result<(u64, u64, u64), Cause>
    ensures { result ≡ three_in (fields_of fields.now) }
{
    if let Some((_, a, rest)) = plain_number(fields)
        && let Some((_, b, rest)) = plain_number(rest)
        && let Some((_, c, rest)) = plain_number(rest)
        && rest.is_empty()
    {
        return Ok((a, b, c));
    }
    any_three(fields)
}

/// The numbers of these kinds that are the fields behind the word.
#[tactic(auto, unfolding(crate::specs::Said::numbers_in))]
fn numbers(kinds: Kinds, fields: &[u8]) -> Result<Numbers, Cause>
    ensures value { result ≡ numbers_in kinds (fields_of fields.now) }
    ensures within { IfOk result (AreWithin kinds) }
{
    match kinds {
        Kinds::One(a) => {
            let first = of_kind(a, one(fields)?)?;
            Ok(Numbers {
                first,
                second: 0,
                third: 0,
            })
        }
        Kinds::Two(a, b) => {
            let (first, second) = two(fields)?;
            let first = of_kind(a, first)?;
            let second = of_kind(b, second)?;
            Ok(Numbers {
                first,
                second,
                third: 0,
            })
        }
        Kinds::Three(a, b, c) => {
            let (first, second, third) = three(fields)?;
            let first = of_kind(a, first)?;
            let second = of_kind(b, second)?;
            let third = of_kind(c, third)?;
            Ok(Numbers {
                first,
                second,
                third,
            })
        }
    }
}

/// The operation with this letter that a line in a lane says in a text of this version.
fn op_with(version: Version, letter: u8, fields: &[u8]) -> Result<Op, Cause>
    ensures { result ≡ op_by version (maker_of letter) (fields_of fields.now) }
{
    let Some(kinds) = Op::kinds(version, letter) else {
        return Err(Cause::UnknownOp);
    };
    let numbers = numbers(kinds, fields)?;
    Op::made(letter, numbers).ok_or(Cause::UnknownOp)
}

/// The operation that a line in a lane says in a text of this version.
#[tactic(auto, unfolding(crate::specs::Said::op_of))]
pub(crate) fn op(version: Version, word: &[u8], fields: &[u8]) -> Result<Op, Cause>
    ensures { result ≡ op_of version word.now (fields_of fields.now) }
{
    match word {
        [letter] => op_with(version, *letter, fields),
        _ => Err(Cause::UnknownOp),
    }
}

/// The order run that an order line says, where there are so many lanes.
#[tactic(auto, unfolding(crate::specs::Said::order_in))]
pub(crate) fn order(lanes: usize, fields: &[u8]) -> Result<OrderRun, Cause>
    requires { lanes ≤ MAX_LANES }
    ensures { result ≡ order_in lanes (fields_of fields.now) }
{
    let (lane, steps) = two(fields)?;
    let steps = ranged(Cause::OutOfRange, 1, u64::from(ORDER_MOST), steps)? as u32;
    if lane < lanes as u64 {
        Ok(OrderRun {
            lane: lane as u8,
            steps,
        })
    } else {
        Err(Cause::OutOfRange)
    }
}

/// The three or four fields behind the word of a heap line.
fn heap_fields(fields: &[u8]) -> Result<(&[u8], &[u8], &[u8], Option<&[u8]>), Cause>
    ensures { TellsCause (λ p. (p.0.now, p.1.now, p.2.now, option_copied p.3)) result
        (heap_fields_in (fields_of fields.now)) }
{
    let (frames, rest) = field(fields)?;
    let (heaps, rest) = field(rest)?;
    let (units, rest) = field(rest)?;
    let Some((limit, rest)) = first_field(rest) else {
        return Ok((frames, heaps, units, None));
    };
    none(rest)?;
    Ok((frames, heaps, units, Some(limit)))
}

/// The turn limit, where it is named.
fn limit(field: Option<&[u8]>) -> Result<Option<u64>, Cause>
    ensures { result ≡ limit_in (option_copied field.entry) }
{
    match field {
        None => Ok(None),
        Some(field) => Ok(Some(numeral(field)?)),
    }
}

/// The numbers of a heap line.
#[tactic(auto, unfolding(crate::specs::Said::heap_numbers_in))]
pub(crate) fn heap_numbers(fields: &[u8]) -> Result<(u64, u64, u64, Option<u64>), Cause>
    ensures { result ≡ heap_numbers_in (fields_of fields.now) }
{
    let (frames, heaps, units, limit_field) = heap_fields(fields)?;
    let frames = numeral(frames)?;
    let heaps = numeral(heaps)?;
    let units = numeral(units)?;
    let limit = limit(limit_field)?;
    Ok((frames, heaps, units, limit))
}
