//! Memory of the heap for C, by pointers: what a library to preload asks for. `include/balloc_malloc.h` declares the
//! same.
//!
//! A seat is a thread's: it has a pass of the heap with pages of memory, or nothing. Memory goes out to C by a pointer,
//! with how many words it has; C gives it back by its first word and as many. Nothing of ours stands in its words.
#![tactic(auto)]

mod bundle;
mod calls;
mod codes;
mod entry;
mod erased_box;
mod handed;
mod handing;
mod held;
mod opening;
mod parts;
mod seat;
mod spot;
mod tenant;

ghost use Rattle.std.specs.Prelude.{ℕ, ◌≡◌, ◌<◌, Result, Some, length};
ghost use Rattle.std.specs.Borrow.{sem};
ghost use Rattle.plain_words.specs.declared.plain.PlainWords.{PlainWords as Words};
ghost use Rattle.plain_words.specs.declared.plain.Start.{Start};
ghost use Rattle.balloc_malloc.specs.Bundles.{AreOfSeat, EmptiesBy, Puts, bundled};
ghost use Rattle.balloc_malloc.specs.Counts.{TellsCounts, TellsMemory};
ghost use Rattle.balloc_malloc.specs.Gives.{GivesBy};
ghost use Rattle.balloc_malloc.specs.Handing.{handed, words_own};
ghost use Rattle.balloc_malloc.specs.Opened.{Opens, numbers};
ghost use Rattle.balloc_malloc.specs.Out.{HasOut};
ghost use Rattle.balloc_malloc.specs.Resizes.{AreNumbered, ResizesBy};
ghost use Rattle.balloc_malloc.specs.Takes.{ServesBy, TakesBy};

use bundle::Bundle;
use calls::{empty, give, put, resize, take, take_ready};
use codes::{DONE, EMPTY};
use handed::Handed;
use heap_geometry::geometry::Geometry;
use heap_geometry::limits::MAX_TURNS;
use live_heap::placement::Placement;
use opening::open_all;
use plain_words::PlainWords;
use seat::ThreadSeat;
use spot::Spot;
use std::alloc::Global;
use std::marker::PhantomData;

/// Opens a heap with one caller for each seat and puts a pass of it into each, with magazines of this depth for pages.
/// Tells where its memory begins, and how many bytes of it blocks lie in.
#[unsafe(no_mangle)]
pub extern "C" fn balloc_malloc_open(
    alloc: Global,
    frames: u32,
    heaps: u32,
    depth: u32,
    seats: &mut [ThreadSeat],
    memory: &mut Spot,
    bytes: &mut usize,
) -> u32
    ensures opened { (outcome : Result Start ℕ) × Opens seats.old (numbers frames heaps (length seats.old)) depth outcome seats.new
        × TellsMemory (numbers frames heaps (length seats.old)) outcome result memory.old bytes.old memory.new bytes.new }
{
    let geometry = Geometry {
        frames,
        heaps,
        units: 0,
        callers: seats.len().min(1000) as u32,
        turn_limit: MAX_TURNS,
    };
    match open_all(alloc, geometry, depth, seats) {
        Ok(start) => {
            *memory = Spot::of(start);
            *bytes = 8 * Placement::new(geometry).count() as usize;
            DONE
        }
        Err(code) => code,
    }
}

/// Memory of at least so many bytes, at most 2,048, of a page that is ready, to which the pointer leads, and how many words it
/// has, as the result. Where no page is nothing has changed, and it is 0.
#[unsafe(no_mangle)]
pub extern "C" fn balloc_malloc_take_ready(
    seat: &mut ThreadSeat,
    bytes: usize,
    memory: &mut *mut u64,
) -> u32
    ensures* memory { sem 𝓛 (handed (λ words. ServesBy seat.old.held.tenant bytes result words memory.new seat.new.held.tenant)) }
{
    let Handed { memory: at, code } = take_ready(seat, bytes);
    *memory = at;
    code
}

/// Memory of at least so many bytes, to which the pointer leads, and how many words it has, as the result.
#[unsafe(no_mangle)]
pub extern "C" fn balloc_malloc_take(
    seat: &mut ThreadSeat,
    bytes: usize,
    memory: &mut *mut u64,
) -> u32
    ensures* memory { sem 𝓛 (handed (λ words. TakesBy seat.old.held.tenant bytes result words memory.new seat.new.held.tenant)) }
{
    let Handed { memory: at, code } = take(seat, bytes);
    *memory = at;
    code
}

/// Takes memory back that this seat gave and that was not given back since, by its first word and how many it has.
#[unsafe(no_mangle)]
pub unsafe extern "C" fn balloc_malloc_give(seat: &mut ThreadSeat, first: usize, size: u32)
    ghost words: { Words }
    requires out { HasOut seat.old.held.tenant words first size }
    requires* words { sem 𝓛 (words_own (Some words)) }
    ensures given { GivesBy seat.old.held.tenant first seat.new.held.tenant }
{
    let words = PlainWords { mark: PhantomData };
    give(seat, words, first, size);
}

/// Puts memory that some seat of a heap gave into a bundle, by its first word and how many it has. Any thread may, whoever
/// has that seat. How many pieces the bundle has now is the result.
#[unsafe(no_mangle)]
pub unsafe extern "C" fn balloc_malloc_put(bundle: &mut Bundle, first: u32, size: u32) -> usize
    ghost words: { Words }
    requires room { bundle.old.count < 32 }
    requires* words { sem 𝓛 (words_own (Some words)) }
    ensures put { Puts bundle.old words first size result bundle.new }
{
    let words = PlainWords { mark: PhantomData };
    put(bundle, words, first, size)
}

/// Takes back what a bundle has of this seat's memory, the last piece first, up to one that this seat didn't give or that
/// was given back since. How many pieces are left is the result.
#[unsafe(no_mangle)]
pub extern "C" fn balloc_malloc_empty(seat: &mut ThreadSeat, bundle: &mut Bundle) -> usize
    requires home { AreOfSeat seat.old.held.tenant (bundled bundle.old) }
    ensures emptied { EmptiesBy seat.old.held.tenant (bundled bundle.old) seat.new.held.tenant (bundled bundle.new) }
    ensures left { result ≡ length (bundled bundle.new) }
{
    empty(seat, bundle);
    bundle.count()
}

/// Memory of at least so many bytes, with what this one has, as far as both go: this one, where it has as many; else
/// another one, and this one is given back. How many words has what is told is the result.
#[unsafe(no_mangle)]
pub unsafe extern "C" fn balloc_malloc_resize(
    seat: &mut ThreadSeat,
    first: usize,
    size: u32,
    bytes: usize,
    moved: &mut *mut u64,
) -> u32
    ghost words: { Words }
    requires out { HasOut seat.old.held.tenant words first size }
    requires numbered { AreNumbered words }
    requires* words { sem 𝓛 (words_own (Some words)) }
    ensures* words { sem 𝓛 (handed (λ told. ResizesBy seat.old.held.tenant words size bytes result told moved.new seat.new.held.tenant)) }
{
    let words = PlainWords { mark: PhantomData };
    let Handed { memory: at, code } = resize(seat, words, first, size, bytes);
    *moved = at;
    code
}

/// How many of its takes a page that was ready served, how many blocks are out, those in magazines too, and how many
/// exchanges its pass has lost.
#[unsafe(no_mangle)]
pub extern "C" fn balloc_malloc_counts(
    seat: &mut ThreadSeat,
    hits: &mut u64,
    out: &mut u64,
    lost: &mut u64,
) -> u32
    ensures told { TellsCounts seat.old.held.tenant result (hits.old, out.old, lost.old) (hits.new, out.new, lost.new) }
    ensures same { seat.new.held.tenant ≡ seat.old.held.tenant }
{
    match seat.tenant() {
        Some(tenant) => {
            *hits = tenant.hits();
            *out = tenant.out();
            *lost = tenant.lost();
            DONE
        }
        None => EMPTY,
    }
}
