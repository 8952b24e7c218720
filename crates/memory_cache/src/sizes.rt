//! How many words a piece has, and how such sizes are numbered.

ghost use Rattle.std.specs.Prelude.{◌≡◌, ◌-◌, ◌*◌, ◌/◌, ◌<◌, ◌≤◌};
ghost use Rattle.heap_geometry.specs.declared.limits.TheConstants.{LARGE_MOST, SMALL_MOST};
ghost use Rattle.memory_cache.specs.declared.sizes.TheConstants.{FAR, PAIRED};
ghost use Rattle.memory_cache.specs.Sizes.{page_words, piece_words, size_number, steps_of};

use heap_geometry::limits::SMALL_MOST;
use heap_geometry::need::{class_of, usable};

/// Up to so many words, sizes are two words apart.
const CLOSE: u32 = 16;

/// Up to so many words, sizes are four words apart.
const NEAR: u32 = 32;

/// Up to so many words, sizes are eight words apart.
const MIDDLE: u32 = 64;

/// Up to so many words, sizes are sixteen words apart, and read from tables.
const FAR: u32 = 256;

/// Up to so many words a page has two pieces or more, each of an even number of words.
const PAIRED: u32 = 1022;

/// How many sizes there are. The last one stands for all pieces that are alone in their page.
pub(crate) const SIZES: usize = 35;

/// How many words a piece has that serves so many.
#[inline(always)]
pub fn piece_words(words: u32) -> u32
    requires { words ≤ LARGE_MOST }
    ensures value { result ≡ piece_words words }
    ensures enough { words ≤ result }
    ensures some { 0 < result }
{
    if words <= CLOSE {
        words.max(1).div_ceil(2) * 2
    } else if words <= NEAR {
        words.div_ceil(4) * 4
    } else if words <= MIDDLE {
        words.div_ceil(8) * 8
    } else if words <= FAR {
        words.div_ceil(16) * 16
    } else if words <= PAIRED {
        shared_words(words)
    } else {
        usable(class_of(page_words(words)))
    }
}

/// How many words are asked for, for a page whose pieces serve so many: the most of a small block, or more.
#[inline(always)]
pub(crate) fn page_words(words: u32) -> u32
    requires { words ≤ LARGE_MOST }
    ensures value { result ≡ page_words words }
    ensures within { (SMALL_MOST ≤ result) × (result ≤ LARGE_MOST) }
{
    words.max(SMALL_MOST)
}

/// The number of the size that a piece of so many words has.
#[inline(always)]
pub(crate) fn size_number(size: u32) -> usize
    ensures value { result ≡ size_number size }
    ensures within { result < 35 }
{
    if size <= CLOSE {
        (size / 2).saturating_sub(1) as usize
    } else if size <= NEAR {
        3 + (size / 4) as usize
    } else if size <= MIDDLE {
        7 + (size / 8) as usize
    } else if size <= FAR {
        11 + (size / 16) as usize
    } else if size <= PAIRED {
        shared_number(size)
    } else {
        SIZES - 1
    }
}

/// How many words a piece has that serves so many, and the number of that size.
#[inline(always)]
pub(crate) fn sized(words: u32) -> (u32, usize)
    requires { words ≤ LARGE_MOST }
    ensures size { result.0 ≡ piece_words words }
    ensures number { result.1 ≡ size_number (piece_words words) }
    ensures enough { words ≤ result.0 }
    ensures within { result.1 < 35 }
{
    if words <= FAR {
        let at = words as usize;
        (u32::from(PIECES[at]), usize::from(NUMBERS[at]))
    } else {
        let size = piece_words(words);
        (size, size_number(size))
    }
}

/// How many words a piece has that serves so many, of a page with seven pieces to two: a table in place of two divisions.
#[inline(always)]
fn shared_words(words: u32) -> u32
    requires { (FAR < words) × (words ≤ PAIRED) }
    ensures { result ≡ 1023 / (1023 / steps_of 2 words) * 2 }
{
    if words <= 292 {
        292
    } else if words <= 340 {
        340
    } else if words <= 408 {
        408
    } else if words <= 510 {
        510
    } else if words <= 682 {
        682
    } else {
        PAIRED
    }
}

/// The number of the size of such pieces: a table in place of a division.
#[inline(always)]
fn shared_number(size: u32) -> usize
    requires { (FAR < size) × (size ≤ PAIRED) }
    ensures { result ≡ 35 - 2047 / size }
{
    if size <= 292 {
        28
    } else if size <= 341 {
        29
    } else if size <= 409 {
        30
    } else if size <= 511 {
        31
    } else if size <= 682 {
        32
    } else {
        33
    }
}

/// How many words a piece has that serves so many: what `piece_words` tells.
static PIECES: [u16; 257] = [
    2, 2, 2, 4, 4, 6, 6, 8, 8, 10, 10, 12, 12, 14, 14, 16, 16, 20, 20, 20, 20, 24, 24, 24, 24, 28,
    28, 28, 28, 32, 32, 32, 32, 40, 40, 40, 40, 40, 40, 40, 40, 48, 48, 48, 48, 48, 48, 48, 48, 56,
    56, 56, 56, 56, 56, 56, 56, 64, 64, 64, 64, 64, 64, 64, 64, 80, 80, 80, 80, 80, 80, 80, 80, 80,
    80, 80, 80, 80, 80, 80, 80, 96, 96, 96, 96, 96, 96, 96, 96, 96, 96, 96, 96, 96, 96, 96, 96,
    112, 112, 112, 112, 112, 112, 112, 112, 112, 112, 112, 112, 112, 112, 112, 112, 128, 128, 128,
    128, 128, 128, 128, 128, 128, 128, 128, 128, 128, 128, 128, 128, 144, 144, 144, 144, 144, 144,
    144, 144, 144, 144, 144, 144, 144, 144, 144, 144, 160, 160, 160, 160, 160, 160, 160, 160, 160,
    160, 160, 160, 160, 160, 160, 160, 176, 176, 176, 176, 176, 176, 176, 176, 176, 176, 176, 176,
    176, 176, 176, 176, 192, 192, 192, 192, 192, 192, 192, 192, 192, 192, 192, 192, 192, 192, 192,
    192, 208, 208, 208, 208, 208, 208, 208, 208, 208, 208, 208, 208, 208, 208, 208, 208, 224, 224,
    224, 224, 224, 224, 224, 224, 224, 224, 224, 224, 224, 224, 224, 224, 240, 240, 240, 240, 240,
    240, 240, 240, 240, 240, 240, 240, 240, 240, 240, 240, 256, 256, 256, 256, 256, 256, 256, 256,
    256, 256, 256, 256, 256, 256, 256, 256,
];

/// The number of its size.
static NUMBERS: [u8; 257] = [
    0, 0, 0, 1, 1, 2, 2, 3, 3, 4, 4, 5, 5, 6, 6, 7, 7, 8, 8, 8, 8, 9, 9, 9, 9, 10, 10, 10, 10, 11,
    11, 11, 11, 12, 12, 12, 12, 12, 12, 12, 12, 13, 13, 13, 13, 13, 13, 13, 13, 14, 14, 14, 14, 14,
    14, 14, 14, 15, 15, 15, 15, 15, 15, 15, 15, 16, 16, 16, 16, 16, 16, 16, 16, 16, 16, 16, 16, 16,
    16, 16, 16, 17, 17, 17, 17, 17, 17, 17, 17, 17, 17, 17, 17, 17, 17, 17, 17, 18, 18, 18, 18, 18,
    18, 18, 18, 18, 18, 18, 18, 18, 18, 18, 18, 19, 19, 19, 19, 19, 19, 19, 19, 19, 19, 19, 19, 19,
    19, 19, 19, 20, 20, 20, 20, 20, 20, 20, 20, 20, 20, 20, 20, 20, 20, 20, 20, 21, 21, 21, 21, 21,
    21, 21, 21, 21, 21, 21, 21, 21, 21, 21, 21, 22, 22, 22, 22, 22, 22, 22, 22, 22, 22, 22, 22, 22,
    22, 22, 22, 23, 23, 23, 23, 23, 23, 23, 23, 23, 23, 23, 23, 23, 23, 23, 23, 24, 24, 24, 24, 24,
    24, 24, 24, 24, 24, 24, 24, 24, 24, 24, 24, 25, 25, 25, 25, 25, 25, 25, 25, 25, 25, 25, 25, 25,
    25, 25, 25, 26, 26, 26, 26, 26, 26, 26, 26, 26, 26, 26, 26, 26, 26, 26, 26, 27, 27, 27, 27, 27,
    27, 27, 27, 27, 27, 27, 27, 27, 27, 27, 27,
];
