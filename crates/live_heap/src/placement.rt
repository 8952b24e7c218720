//! Where the words of a heap lie in memory: words that callers change again and again each in a line of its own.
//!
//! A word has its number in the heap's table. Here each number has its place in a longer list, so that the words of
//! that list, read at those places, are the table. A change at a place is a change at its number.

ghost use Rattle.std.specs.Prelude.{ℕ, ◌≡◌, ◌<◌, ◌≤◌, ◌+◌, ◌-◌, ◌*◌, ◌^◌, min};
ghost use Rattle.heap_geometry.specs.declared.limits.TheConstants.{CLASSES};
ghost use Rattle.heap_geometry.specs.Geometry.{IsChecked};
ghost use Rattle.heap_geometry.specs.declared.geometry.Geometry.{Geometry};
ghost use Rattle.word_table.specs.Counts.{arena_words, word_count};
ghost use Rattle.word_table.specs.Table.{Exists, word_index};
ghost use Rattle.live_heap.specs.placement.Places.{place, placed_count};
ghost use Rattle.live_heap.specs.placement.Starts.{place_from, starts_of, stretches_of};

use heap_geometry::geometry::Geometry;
use heap_geometry::limits::CLASSES;
use std::marker::Model;
use word_table::layout::Layout;
use word_table::name::WordName;

pub mod laws;

/// How many words lie from one word that is apart to the next.
pub const APART: u32 = 8;

/// Words in a row, each of which is apart. A gap lies behind each of them, and behind the word before
/// the first one.
#[derive(Clone, Copy)]
pub struct Stretch {
    /// The number of the word before the first one.
    pub before: u32,
    pub gaps: u32,
}

/// The stretches of a heap, by the numbers of its words.
#[derive(Clone, Copy)]
pub struct Stretches {
    pub superblocks: Stretch,
    pub heaps: Stretch,
    pub heads: Stretch,
}

/// The places of the first words of each kind.
#[derive(Clone, Copy)]
pub struct Starts {
    pub anchors: u32,
    pub nexts: u32,
    pub infos: u32,
    pub actives: u32,
    pub slots: u32,
    pub lists: u32,
    pub frames: u32,
    pub frame_head: u32,
    pub desc_head: u32,
    pub hazards: u32,
    pub units: u32,
    pub shelves: u32,
}

/// The places of the words of a heap, seen as the heap's numbers.
#[derive(Drop)]
pub struct Placement {
    layout: Layout,
    starts: Starts,
}

impl Model for Placement {
    ghost use Rattle.std.specs.Prelude.{◌≡◌};
    ghost use Rattle.heap_geometry.specs.Geometry.{IsChecked};
    ghost use Rattle.heap_geometry.specs.declared.geometry.Geometry.{Geometry};
    ghost use Rattle.live_heap.specs.placement.Starts.{starts_of};

    ghost Value = { Geometry };

    ghost view = { λ p. p.layout };

    ghost invariant = { λ p. IsChecked p.layout × (p.starts ≡ starts_of p.layout) };
}

impl Placement {
    /// The places of the words of a heap with these numbers.
    pub fn new(geometry: Geometry) -> Placement
        requires { IsChecked geometry }
        ensures { result ≡ geometry }
    {
        let layout = Layout::new(geometry);
        Placement {
            layout,
            starts: starts_of(&layout),
        }
    }

    /// The heap's numbers.
    pub fn geometry(&self) -> Geometry
        ensures value { result ≡ self.now }
        ensures checked { IsChecked result }
    {
        self.layout.geometry()
    }

    /// The order of the words.
    pub fn layout(&self) -> Layout
        ensures { result ≡ self.now }
    {
        self.layout
    }

    /// The place of a word.
    #[inline(always)]
    pub fn place(&self, name: WordName) -> u32
        requires { Exists self.now name }
        ensures place { result ≡ place self.now (word_index self.now name) }
        ensures within { result < placed_count self.now }
    {
        place_from(&self.starts, name)
    }

    /// How many words the arena has, which lies first.
    pub fn arena_words(&self) -> u32
        ensures { result ≡ arena_words self.now }
    {
        self.layout.index(WordName::Anchor(0))
    }

    /// How many words lie in memory, with the gaps.
    pub fn count(&self) -> u32
        ensures { result ≡ placed_count self.now }
    {
        place_at(
            &self.layout,
            stretches_of(&self.layout),
            self.layout.words(),
        )
    }
}

/// The place of a word from that of the first one of its kind.
#[inline(always)]
fn place_from(starts: &Starts, name: WordName) -> u32
    requires { place_from starts.now name < 2 ^ 32 }
    ensures { result ≡ place_from starts.now name }
{
    match name {
        WordName::Arena(word) => word,
        WordName::Anchor(desc) => starts.anchors + APART * u32::from(desc),
        WordName::Next(desc) => starts.nexts + u32::from(desc),
        WordName::Info(desc) => starts.infos + u32::from(desc),
        WordName::Active(heap, class) => starts.actives + APART * in_heap(heap, class),
        WordName::Slot(heap, class) => starts.slots + APART * in_heap(heap, class),
        WordName::ListHead(class) => starts.lists + APART * u32::from(class),
        WordName::FrameNext(frame) => starts.frames + u32::from(frame),
        WordName::FrameHead => starts.frame_head,
        WordName::DescHead => starts.desc_head,
        WordName::Hazard(caller) => starts.hazards + APART * u32::from(caller),
        WordName::Units => starts.units,
        WordName::Shelf(shelf) => starts.shelves + u32::from(shelf),
    }
}

/// Where a processor heap's word for a class stands among those of all.
#[inline(always)]
fn in_heap(heap: u8, class: u8) -> u32
    ensures { result ≡ heap * CLASSES + class }
{
    u32::from(heap) * u32::from(CLASSES) + u32::from(class)
}

/// The stretches of a heap.
fn stretches_of(layout: &Layout) -> Stretches
    ensures { result ≡ stretches_of layout.now }
{
    let geometry = layout.geometry();
    Stretches {
        superblocks: Stretch {
            before: layout.index(WordName::Anchor(0)) - 1,
            gaps: layout.descriptors() + 1,
        },
        heaps: Stretch {
            before: layout.index(WordName::Active(0, 0)) - 1,
            gaps: 2 * (geometry.heaps * u32::from(CLASSES)) + u32::from(CLASSES) + 1,
        },
        heads: Stretch {
            before: layout.index(WordName::FrameHead) - 1,
            gaps: geometry.callers + 3 + 1,
        },
    }
}

/// The place of a number.
fn place_at(_layout: &Layout, stretches: Stretches, index: u32) -> u32
    requires checked { IsChecked _layout.now }
    requires stretches { stretches ≡ stretches_of _layout.now }
    requires index { index ≤ word_count _layout.now }
    ensures { result ≡ place _layout.now index }
{
    index
        + (APART - 1)
            * (passed(stretches.superblocks, index)
                + passed(stretches.heaps, index)
                + passed(stretches.heads, index))
}

/// How many gaps of a stretch lie before a number.
fn passed(stretch: Stretch, index: u32) -> u32
    ensures { result ≡ min (index - stretch.before) stretch.gaps }
{
    index.saturating_sub(stretch.before).min(stretch.gaps)
}

/// The places of the first words of each kind.
fn starts_of(layout: &Layout) -> Starts
    requires { IsChecked layout.now }
    ensures { result ≡ starts_of layout.now }
{
    let stretches = stretches_of(layout);
    Starts {
        anchors: place_at(layout, stretches, layout.index(WordName::Anchor(0))),
        nexts: place_at(layout, stretches, layout.index(WordName::Next(0))),
        infos: place_at(layout, stretches, layout.index(WordName::Info(0))),
        actives: place_at(layout, stretches, layout.index(WordName::Active(0, 0))),
        slots: place_at(layout, stretches, layout.index(WordName::Slot(0, 0))),
        lists: place_at(layout, stretches, layout.index(WordName::ListHead(0))),
        frames: place_at(layout, stretches, layout.index(WordName::FrameNext(0))),
        frame_head: place_at(layout, stretches, layout.index(WordName::FrameHead)),
        desc_head: place_at(layout, stretches, layout.index(WordName::DescHead)),
        hazards: place_at(layout, stretches, layout.index(WordName::Hazard(0))),
        units: place_at(layout, stretches, layout.index(WordName::Units)),
        shelves: place_at(layout, stretches, layout.index(WordName::Shelf(0))),
    }
}
