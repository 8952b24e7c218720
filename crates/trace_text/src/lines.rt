//! The lines of a text, and the fields of a line.

ghost use Rattle.std.specs.Prelude.{◌≡◌, ◌∷◌, ◌==◌, ◌<◌, ◌≤◌, [], not, true, length, position, take, IfSome, MatchOption};
ghost use Rattle.std.specs.List.{list_all};
ghost use Rattle.trace_text.specs.Lines.{without_return, lines_of, fields_of, is_blank, is_plain, is_comment, BeginsField};

use crate::limits::{CARRIAGE_RETURN, COMMENT, LAST_PRINTABLE, LINE_FEED, SPACE, TAB};
use memchr::memchr;

/// A line less the one carriage return at its end, if it has one.
fn without_return(line: &[u8]) -> &[u8]
    ensures { result.now ≡ without_return line.now }
{
    match line.len() {
        0 => line,
        len if line[len - 1] == CARRIAGE_RETURN => &line[..len - 1],
        _ => line,
    }
}

/// Where the first line feed stands.
fn line_end(text: &[u8]) -> Option<usize>
    ensures place { result ≡ position (λ b. b == LINE_FEED) text.now }
    ensures within { IfSome result (λ end. end < length text.now) }
{
    memchr(LINE_FEED, text)
}

/// The first line of a text, and what is left behind it.
pub(crate) fn first_line(text: &[u8]) -> Option<(&[u8], &[u8])>
    ensures lines { MatchOption result (lines_of text.now ≡ [])
        (λ p. lines_of text.now ≡ p.0.now ∷ lines_of p.1.now) }
    ensures shorter { IfSome result (λ p. length p.1.now < length text.now) }
{
    match line_end(text) {
        Some(end) => Some((without_return(&text[..end]), &text[end + 1..])),
        None if text.is_empty() => None,
        None => Some((without_return(text), &[])),
    }
}

/// Whether a byte parts fields.
fn is_blank(b: u8) -> bool
    ensures { result ≡ is_blank b }
{
    b == SPACE || b == TAB
}

/// Whether each byte is one that a line may have.
pub(crate) fn is_plain(line: &[u8]) -> bool
    ensures { result ≡ list_all is_plain line.now }
{
    let mut plain = true;
    for b in line {
        plain &= *b == TAB || (SPACE <= *b && *b <= LAST_PRINTABLE);
    }
    plain
}

/// Whether a first field begins a comment.
pub(crate) fn is_comment(field: &[u8]) -> bool
    ensures { result ≡ is_comment field.now }
{
    match field {
        [] => false,
        [first, ..] => *first == COMMENT,
    }
}

/// Where the first field begins.
fn field_start(line: &[u8]) -> Option<usize>
    ensures place { result ≡ position (λ b. not (is_blank b)) line.now }
    ensures within { IfSome result (λ start. start < length line.now) }
{
    line.iter().position(|b| !is_blank(*b))
}

/// Where the field that the bytes begin with ends.
fn field_end(bytes: &[u8]) -> Option<usize>
    ensures place { result ≡ position is_blank bytes.now }
    ensures within { IfSome result (λ end. end < length bytes.now) }
{
    bytes.iter().position(|b| is_blank(*b))
}

/// A line from its first field on.
pub(crate) fn from_field(line: &[u8]) -> Option<&[u8]>
    ensures { MatchOption result (fields_of line.now ≡ [])
        (λ bytes. (fields_of line.now ≡ fields_of bytes.now) × BeginsField bytes.now) }
{
    match field_start(line) {
        Some(start) => Some(&line[start..]),
        None => None,
    }
}

/// The first field of a line, and what is left behind it.
pub(crate) fn first_field(line: &[u8]) -> Option<(&[u8], &[u8])>
    ensures { MatchOption result (fields_of line.now ≡ [])
        (λ p. fields_of line.now ≡ p.0.now ∷ fields_of p.1.now) }
{
    let Some(bytes) = from_field(line) else {
        return None;
    };
    match field_end(bytes) {
        Some(end) => Some((&bytes[..end], &bytes[end + 1..])),
        None => Some((bytes, &[])),
    }
}

/// The field that the bytes begin with, and what is left behind it, if it ends at this place.
pub(crate) fn field_to(bytes: &[u8], end: usize) -> Option<(&[u8], &[u8])>
    requires within { end ≤ length bytes.now }
    requires begins { BeginsField bytes.now }
    requires filled { list_all (λ b. not (is_blank b)) (take end bytes.now) ≡ true }
    ensures { IfSome result (λ p. (p.0.now ≡ take end bytes.now) × (0 < end) × (fields_of bytes.now ≡ p.0.now ∷ fields_of p.1.now)) }
{
    if end == bytes.len() {
        Some((bytes, &[]))
    } else if is_blank(bytes[end]) {
        Some((&bytes[..end], &bytes[end + 1..]))
    } else {
        None
    }
}
