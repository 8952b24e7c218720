//! The numbers that fields are.

ghost use Rattle.std.specs.Prelude.{ℕ, ◌≡◌, ◌≤◌, ◌<◌, ◌^◌, ◌&&◌, nat_lt, if◌then◌else◌, length, take, true, IfSome, Some, None};
ghost use Rattle.std.specs.Char.{is_ascii_digit};
ghost use Rattle.std.specs.Fmt.{decimal};
ghost use Rattle.std.specs.List.{list_all};
ghost use Rattle.std.specs.Str.Parse.{digits_value};
ghost use Rattle.trace_text.specs.Numbers.{number_in};

use crate::limits::ZERO;

/// How many digits a number may have that is below 2^64 whatever they are.
pub(crate) const SHORT: usize = 19;

/// The number that few digits write, in one pass.
fn short_number(field: &[u8]) -> Option<u64>
    requires { length field.now ≤ 19 }
    ensures { result ≡ (if list_all is_ascii_digit field.now then Some (digits_value 10 field.now) else None) }
{
    let mut n: u64 = 0;
    for b in field {
        if !b.is_ascii_digit() {
            return None;
        }
        n = n * 10 + u64::from(*b - ZERO);
    }
    Some(n)
}

/// How many of the first bytes are digits, and the number that they write, if they are few.
pub(crate) fn first_digits(bytes: &[u8]) -> (usize, u64)
    ensures within { result.0 ≤ length bytes.now }
    ensures digits { list_all is_ascii_digit (take result.0 bytes.now) ≡ true }
    ensures value { result.0 ≤ 19 → result.1 ≡ digits_value 10 (take result.0 bytes.now) }
{
    let mut n: u64 = 0;
    let mut len = 0;
    for b in bytes {
        if !b.is_ascii_digit() {
            return (len, n);
        }
        n = n
            .wrapping_mul(10)
            .wrapping_add(u64::from(*b) - u64::from(ZERO));
        len += 1;
    }
    (len, n)
}

/// The number that a field of few digits is, which write this one.
pub(crate) fn digits_number(field: &[u8], n: u64) -> Option<u64>
    requires some { 0 < length field.now }
    requires few { length field.now ≤ 19 }
    requires digits { list_all is_ascii_digit field.now ≡ true }
    requires value { n ≡ digits_value 10 field.now }
    ensures { result ≡ number_in field.now }
{
    if field[0] == ZERO && field.len() > 1 {
        None
    } else {
        Some(n)
    }
}

/// The number below 2^64 that digits write, in one pass.
fn long_number(field: &[u8]) -> Option<u64>
    ensures { result ≡ (if list_all is_ascii_digit field.now && nat_lt (digits_value 10 field.now) (2 ^ 64) then Some (digits_value 10 field.now) else None) }
{
    let mut n: u64 = 0;
    for b in field {
        if !b.is_ascii_digit() {
            return None;
        }
        n = n.checked_mul(10)?.checked_add(u64::from(*b - ZERO))?;
    }
    Some(n)
}

/// The number that a field is, below 2^64: `0`, or digits that don't begin with 0.
pub fn number(field: &[u8]) -> Option<u64>
    ensures value { result ≡ number_in field.now }

    // The field is the decimal digits of the number, and each number is read from its digits.
    ensures found { IfSome result (λ n. field.now ≡ decimal n) }
    ensures only { (n : ℕ) → n < 2 ^ 64 → field.now ≡ decimal n → result ≡ Some n }
{
    match field {
        [] => None,
        [first, ..] if *first == ZERO && field.len() > 1 => None,
        _ if field.len() <= SHORT => short_number(field),
        _ => long_number(field),
    }
}
