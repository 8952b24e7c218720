//! Calls by a seat.

ghost use Rattle.std.specs.Prelude.{◌≡◌, ◌<◌};
ghost use Rattle.balloc_malloc.specs.Bundles.{AreOfSeat, EmptiesBy, Puts, bundled};
ghost use Rattle.balloc_malloc.specs.Gives.{GivesBy};
ghost use Rattle.balloc_malloc.specs.Out.{HasOut};
ghost use Rattle.balloc_malloc.specs.Resizes.{AreNumbered, ResizesBy};
ghost use Rattle.balloc_malloc.specs.Takes.{ServesBy, TakesBy};

use crate::bundle::Bundle;
use crate::codes::{DONE, EMPTY};
use crate::handed::Handed;
use crate::seat::ThreadSeat;
use plain_words::PlainWords;

/// Memory of at least so many bytes, of a page that is ready.
#[inline(always)]
pub fn take_ready(seat: &mut ThreadSeat, bytes: usize) -> Handed
    ensures { ServesBy seat.old.held.tenant bytes result.code result.words result.memory seat.new.held.tenant }
{
    match seat.tenant() {
        Some(tenant) => tenant.take_ready(bytes),
        None => Handed::none(DONE),
    }
}

/// Memory of at least so many bytes.
#[inline(always)]
pub fn take(seat: &mut ThreadSeat, bytes: usize) -> Handed
    ensures { TakesBy seat.old.held.tenant bytes result.code result.words result.memory seat.new.held.tenant }
{
    match seat.tenant() {
        Some(tenant) => tenant.take(bytes),
        None => Handed::none(EMPTY),
    }
}

/// Takes memory back, by its first word and how many words it has.
#[inline(always)]
pub fn give(seat: &mut ThreadSeat, words: PlainWords, first: usize, size: u32)
    requires { HasOut seat.old.held.tenant words first size }
    ensures { GivesBy seat.old.held.tenant first seat.new.held.tenant }
{
    seat.known().give(words, first, size);
}

/// Memory of at least so many bytes, with what this one has, as far as both go.
pub fn resize(
    seat: &mut ThreadSeat,
    words: PlainWords,
    first: usize,
    size: u32,
    bytes: usize,
) -> Handed
    requires { HasOut seat.old.held.tenant words first size × AreNumbered words }
    ensures { ResizesBy seat.old.held.tenant words size bytes result.code result.words result.memory seat.new.held.tenant }
{
    match seat.tenant() {
        Some(tenant) => tenant.resize(words, first, size, bytes),
        None => Handed::none(EMPTY),
    }
}

/// Puts memory into a bundle, by its first word and how many words it has. How many pieces that has now.
#[inline(always)]
pub fn put(bundle: &mut Bundle, words: PlainWords, first: u32, size: u32) -> usize
    requires { bundle.old.count < 32 }
    ensures { Puts bundle.old words first size result bundle.new }
{
    bundle.put(words, first, size);
    bundle.count()
}

/// Takes back what a bundle has, the last first, up to a piece that isn't out.
pub fn empty(seat: &mut ThreadSeat, bundle: &mut Bundle)
    requires { AreOfSeat seat.old.held.tenant (bundled bundle.old) }
    ensures { EmptiesBy seat.old.held.tenant (bundled bundle.old) seat.new.held.tenant (bundled bundle.new) }
{
    if let Some(tenant) = seat.tenant() {
        tenant.empty(bundle);
    }
}
