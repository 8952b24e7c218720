//! The groups of words in the table, and where a word stands in its group.

ghost use Rattle.std.specs.Prelude.{◌≡◌, ◌<◌, ◌≤◌, ◌*◌, ◌/◌, ◌%◌, length};
ghost use Rattle.heap_geometry.specs.Geometry.{IsChecked};
ghost use Rattle.heap_geometry.specs.declared.limits.TheConstants.{CLASSES, MAX_HEAPS};
ghost use Rattle.word_table.specs.Counts.{descriptor_count};
ghost use Rattle.word_table.specs.Table.{groups, group_number, group_of, offset_of, group_words, start_of, starts_of, name_at};
ghost use Rattle.word_table.specs.declared.limits.TheConstants.{MAX_DESCRIPTORS};

use crate::name::WordName;
use heap_geometry::geometry::Geometry;
use heap_geometry::limits::{CLASSES, FRAME_WORDS, SHELVES, UNIT_WORDS};

/// A group of words that stand together in the table.
#[derive(Clone, Copy, Debug, PartialEq, Eq)]
pub enum Group {
    ArenaWords,
    Anchors,
    Nexts,
    Infos,
    Actives,
    Slots,
    ListHeads,
    FrameNexts,
    FrameHeads,
    DescHeads,
    Hazards,
    UnitWords,
    Shelves,
}

/// How many groups there are.
pub const GROUP_COUNT: usize = 13;

/// The groups in their order, each at its own number.
pub const GROUPS: [Group; GROUP_COUNT] = [
    Group::ArenaWords,
    Group::Anchors,
    Group::Nexts,
    Group::Infos,
    Group::Actives,
    Group::Slots,
    Group::ListHeads,
    Group::FrameNexts,
    Group::FrameHeads,
    Group::DescHeads,
    Group::Hazards,
    Group::UnitWords,
    Group::Shelves,
];

/// The group of a word.
#[inline(always)]
pub fn group_of(name: WordName) -> Group
    ensures { result ≡ group_of name }
{
    match name {
        WordName::Arena(_) => Group::ArenaWords,
        WordName::Anchor(_) => Group::Anchors,
        WordName::Next(_) => Group::Nexts,
        WordName::Info(_) => Group::Infos,
        WordName::Active(_, _) => Group::Actives,
        WordName::Slot(_, _) => Group::Slots,
        WordName::ListHead(_) => Group::ListHeads,
        WordName::FrameNext(_) => Group::FrameNexts,
        WordName::FrameHead => Group::FrameHeads,
        WordName::DescHead => Group::DescHeads,
        WordName::Hazard(_) => Group::Hazards,
        WordName::Units => Group::UnitWords,
        WordName::Shelf(_) => Group::Shelves,
    }
}

/// Where a word stands in its group.
#[inline(always)]
pub fn offset_of(name: WordName) -> u32
    ensures { result ≡ offset_of name }
{
    match name {
        WordName::Arena(word) => word,
        WordName::Anchor(desc) | WordName::Next(desc) | WordName::Info(desc) => u32::from(desc),
        WordName::Active(heap, class) | WordName::Slot(heap, class) => {
            u32::from(heap) * u32::from(CLASSES) + u32::from(class)
        }
        WordName::ListHead(class) => u32::from(class),
        WordName::FrameNext(frame) => u32::from(frame),
        WordName::FrameHead | WordName::DescHead | WordName::Units => 0,
        WordName::Hazard(caller) => u32::from(caller),
        WordName::Shelf(shelf) => u32::from(shelf),
    }
}

/// How many descriptors a heap has.
#[tactic(auto, unfolding(crate::specs::Counts::descriptor_count))]
pub fn descriptor_count(geometry: Geometry) -> u32
    requires { IsChecked geometry }
    ensures value { result ≡ descriptor_count geometry }
    ensures within { result ≤ MAX_DESCRIPTORS }
{
    let each_class = geometry.frames + geometry.heaps + 2 * geometry.callers;
    u32::from(CLASSES) * each_class + geometry.callers * (geometry.callers + 1)
}

/// How many words a group has.
pub fn group_words(geometry: Geometry, group: Group) -> u32
    requires { IsChecked geometry }
    ensures { result ≡ group_words geometry group }
{
    match group {
        Group::ArenaWords => FRAME_WORDS * geometry.frames + UNIT_WORDS * geometry.units,
        Group::Anchors | Group::Nexts | Group::Infos => descriptor_count(geometry),
        Group::Actives | Group::Slots => geometry.heaps * u32::from(CLASSES),
        Group::ListHeads => u32::from(CLASSES),
        Group::FrameNexts => geometry.frames,
        Group::FrameHeads | Group::DescHeads | Group::UnitWords => 1,
        Group::Hazards => geometry.callers,
        Group::Shelves => u32::from(SHELVES),
    }
}

/// How many groups stand before one.
#[inline(always)]
pub fn group_number(group: Group) -> usize
    ensures value { result ≡ group_number group }
    ensures within { result < length groups }
{
    group as usize
}

/// How many words stand before a group.
pub fn start_of(geometry: Geometry, group: Group) -> u32
    requires { IsChecked geometry }
    ensures { result ≡ start_of geometry group }
{
    let mut start = 0;
    for before in &GROUPS[..group_number(group)] {
        start += group_words(geometry, *before);
    }
    start
}

/// How many words stand before each group, in their order.
pub fn starts_of(geometry: Geometry) -> [u32; GROUP_COUNT]
    requires { IsChecked geometry }
    ensures { result ≡ starts_of geometry }
{
    [
        start_of(geometry, Group::ArenaWords),
        start_of(geometry, Group::Anchors),
        start_of(geometry, Group::Nexts),
        start_of(geometry, Group::Infos),
        start_of(geometry, Group::Actives),
        start_of(geometry, Group::Slots),
        start_of(geometry, Group::ListHeads),
        start_of(geometry, Group::FrameNexts),
        start_of(geometry, Group::FrameHeads),
        start_of(geometry, Group::DescHeads),
        start_of(geometry, Group::Hazards),
        start_of(geometry, Group::UnitWords),
        start_of(geometry, Group::Shelves),
    ]
}

/// The word that stands at a place of a group.
#[tactic(auto, using(crate::proofs::CountLemmas::descriptor_count_within))]
pub fn name_at(geometry: Geometry, group: Group, offset: u32) -> WordName
    requires checked { IsChecked geometry }
    requires within { offset < group_words geometry group }
    ensures { result ≡ name_at group offset }
{
    match group {
        Group::ArenaWords => WordName::Arena(offset),
        Group::Anchors => WordName::Anchor(offset as u16),
        Group::Nexts => WordName::Next(offset as u16),
        Group::Infos => WordName::Info(offset as u16),
        Group::Actives => WordName::Active(heap_at(offset), class_at(offset)),
        Group::Slots => WordName::Slot(heap_at(offset), class_at(offset)),
        Group::ListHeads => WordName::ListHead(offset as u8),
        Group::FrameNexts => WordName::FrameNext(offset as u16),
        Group::FrameHeads => WordName::FrameHead,
        Group::DescHeads => WordName::DescHead,
        Group::Hazards => WordName::Hazard(offset as u8),
        Group::UnitWords => WordName::Units,
        Group::Shelves => WordName::Shelf(offset as u8),
    }
}

/// The heap at a place of a group that has a word for each heap and class.
fn heap_at(offset: u32) -> u8
    requires { offset < MAX_HEAPS * CLASSES }
    ensures { result ≡ offset / CLASSES }
{
    (offset / u32::from(CLASSES)) as u8
}

/// The class there.
fn class_at(offset: u32) -> u8
    ensures { result ≡ offset % CLASSES }
{
    (offset % u32::from(CLASSES)) as u8
}
