//! The words and the errands of a machine that has made no step.

ghost use Rattle.std.specs.Prelude.{◌≡◌, ◌<◌, IfOk, IfSome};
ghost use Rattle.heap_geometry.specs.Geometry.{IsChecked};
ghost use Rattle.heap_geometry.specs.declared.limits.TheConstants.{CLASSES};
ghost use Rattle.word_table.specs.Counts.{word_count};
ghost use Rattle.word_table.specs.Table.{Exists};
ghost use Rattle.word_table.specs.declared.limits.TheConstants.{MOST_CREDITS};
ghost use Rattle.packed_words.specs.Active.{active_word};
ghost use Rattle.packed_words.specs.declared.active.ActiveWord.{ActiveWord};
ghost use Rattle.step_machine.specs.Firsts.{AreErrands, IsTable};
ghost use Rattle.errand_steps.specs.Openings.{next_index, opening, link_at, full_credits, full_anchor, installed};
ghost use Rattle.step_machine.specs.Openings.{first_words};

use errand_steps::errand::Errand;
use heap_geometry::geometry::Geometry;
use heap_geometry::limits::FRAME_WORDS;
use heap_geometry::need::{block_count, block_words};
use packed_words::active::ActiveWord;
use packed_words::anchor::{Anchor, AnchorState};
use packed_words::info::Info;
use std::alloc::{AllocError, Global};
use word_table::layout::Layout;
use word_table::limits::MOST_CREDITS;
use word_table::name::WordName;

/// The table of the words, at opening or with a superblock of a class installed.
pub fn first_table(
    alloc: Global,
    layout: &Layout,
    installed: Option<u8>,
) -> Result<Vec<u64>, AllocError>
    requires { IfSome installed (λ class. class < CLASSES) }
    ensures { IfOk result (λ table. IsTable layout.now (first_words layout.now installed) (word_count layout.now) table.items) }
{
    let mut words = Vec::new(alloc);
    for index in 0..layout.words() {
        words.push(first_word(layout, installed, layout.name(index)))?;
    }
    Ok(words)
}

/// An idle errand for each caller.
pub fn first_errands(alloc: Global, geometry: Geometry) -> Result<Vec<Errand>, AllocError>
    requires { IsChecked geometry }
    ensures { IfOk result (λ errands. AreErrands geometry geometry.callers errands.items) }
{
    let mut errands = Vec::new(alloc);
    for caller in 0..geometry.callers {
        errands.push(Errand::open(caller, geometry))?;
    }
    Ok(errands)
}

/// A word of the table.
fn first_word(layout: &Layout, installed: Option<u8>, name: WordName) -> u64
    requires class { IfSome installed (λ class. class < CLASSES) }
    requires exists { Exists layout.now name }
    ensures { result ≡ first_words layout.now installed name }
{
    match installed {
        None => opening(layout, name),
        Some(class) => installed_word(layout, class, name),
    }
}

/// A word at opening.
pub fn opening(layout: &Layout, name: WordName) -> u64
    requires { Exists layout.now name }
    ensures { result ≡ opening layout.now name }
{
    match name {
        WordName::Next(desc) => next_index(layout.descriptors(), u32::from(desc)),
        WordName::FrameNext(frame) => next_index(layout.geometry().frames, u32::from(frame)),
        WordName::FrameHead | WordName::DescHead => 1,
        _ => 0,
    }
}

/// The next word of an index in a stack of so many, in their order.
fn next_index(count: u32, index: u32) -> u64
    requires { index < count }
    ensures { result ≡ next_index count index }
{
    if index + 1 == count {
        0
    } else {
        u64::from(index) + 2
    }
}

/// A word with a superblock of the class installed.
fn installed_word(layout: &Layout, class: u8, name: WordName) -> u64
    requires class { class < CLASSES }
    requires exists { Exists layout.now name }
    ensures { result ≡ installed layout.now class name }
{
    let frames = layout.geometry().frames;
    match name {
        WordName::Arena(word) => link_at(class, word),
        WordName::Anchor(0) => full_anchor(class).pack(),
        WordName::Info(0) => Info::new(0, 0, class).pack(),
        WordName::Active(0, of_class) if of_class == class => held_word(full_credits(class)),
        WordName::Active(..) => 0,
        WordName::FrameHead => next_index(frames, 0),
        WordName::DescHead => next_index(layout.descriptors(), 0),
        _ => opening(layout, name),
    }
}

/// The link of a free block of frame 0; 0 at any other word.
fn link_at(class: u8, word: u32) -> u64
    requires { class < CLASSES }
    ensures { result ≡ link_at class word }
{
    let index = word % FRAME_WORDS / block_words(class);
    if word == index * block_words(class) && index + 1 < block_count(class) {
        u64::from(index) + 1
    } else {
        0
    }
}

/// The credits of a superblock whose blocks are all free.
fn full_credits(class: u8) -> u8
    requires { class < CLASSES }
    ensures { result ≡ full_credits class }
{
    (block_count(class).min(u32::from(MOST_CREDITS)) - 1) as u8
}

/// Its anchor, where it is the active one.
fn full_anchor(class: u8) -> Anchor
    requires { class < CLASSES }
    ensures { result ≡ full_anchor class }
{
    let count = block_count(class) - (u32::from(full_credits(class)) + 1);
    Anchor::new(0, count as u16, AnchorState::Active, 0)
}

/// The active word of descriptor 0 with these credits.
fn held_word(credits: u8) -> u64
    requires { credits < MOST_CREDITS }
    ensures { result ≡ active_word (ActiveWord.Held 0 credits) }
{
    ActiveWord::Held { desc: 0, credits }.pack()
}
