//! The order of the shared words of one heap.

ghost use Rattle.std.specs.Prelude.{◌≡◌, ◌<◌, ◌≤◌};
ghost use Rattle.heap_geometry.specs.Geometry.{IsChecked};
ghost use Rattle.word_table.specs.Counts.{descriptor_count, word_count};
ghost use Rattle.word_table.specs.Table.{Exists, word_index, word_name};
ghost use Rattle.word_table.specs.declared.limits.TheConstants.{MAX_DESCRIPTORS, MAX_WORDS};

use crate::group::{
    GROUP_COUNT, GROUPS, Group, descriptor_count, group_number, group_of, group_words, name_at,
    offset_of, start_of, starts_of,
};
use crate::name::WordName;
use heap_geometry::geometry::Geometry;
use std::marker::Model;

/// The order of the shared words of a heap, seen as the heap's numbers. It keeps where each group begins.
#[derive(Clone, Copy, Debug, PartialEq, Eq)]
pub struct Layout {
    geometry: Geometry,
    starts: [u32; GROUP_COUNT],
}

impl Model for Layout {
    ghost use Rattle.heap_geometry.specs.declared.geometry.Geometry.{Geometry};
    ghost use Rattle.std.specs.Prelude.{◌≡◌};
    ghost use Rattle.heap_geometry.specs.Geometry.{IsChecked};
    ghost use Rattle.word_table.specs.Table.{starts_of};
    ghost use Rattle.std.proofs.Common.{ap, sym};

    ghost Value = { Geometry };

    ghost view = { λ l. l.geometry };

    ghost invariant = { λ l. IsChecked l.geometry × (l.starts ≡ starts_of l.geometry) };

    ghost inverse = { λ g. record { geometry = g; starts = starts_of g } };

    ghost inverse_ok = { λ l h. ap (λ starts. record { geometry = l.geometry; starts = starts }) (sym h.1) };
}

impl Layout {
    /// The layout of a heap with these numbers.
    pub fn new(geometry: Geometry) -> Layout
        requires { IsChecked geometry }
        ensures { result ≡ geometry }
    {
        Layout {
            geometry,
            starts: starts_of(geometry),
        }
    }

    /// The heap's numbers.
    pub fn geometry(&self) -> Geometry
        ensures value { result ≡ self.now }
        ensures checked { IsChecked result }
    {
        self.geometry
    }

    /// How many descriptors the heap has.
    pub fn descriptors(&self) -> u32
        ensures value { result ≡ descriptor_count self.now }
        ensures within { result ≤ MAX_DESCRIPTORS }
    {
        descriptor_count(self.geometry)
    }

    /// How many words the table has.
    pub fn words(&self) -> u32
        ensures value { result ≡ word_count self.now }
        ensures within { result ≤ MAX_WORDS }
    {
        start_of(self.geometry, Group::Shelves) + group_words(self.geometry, Group::Shelves)
    }

    /// The place of a word in the table.
    #[inline(always)]
    pub fn index(&self, name: WordName) -> u32
        requires { Exists self.now name }
        ensures place { result ≡ word_index self.now name }
        ensures within { result < word_count self.now }
        ensures back { word_name self.now result ≡ name }
    {
        self.starts[group_number(group_of(name))] + offset_of(name)
    }

    /// The word at a place of the table.
    pub fn name(&self, index: u32) -> WordName
        requires { index < word_count self.now }
        ensures name { result ≡ word_name self.now index }
        ensures exists { Exists self.now result }
        ensures back { word_index self.now result ≡ index }
    {
        let mut offset = index;
        for group in GROUPS {
            let words = group_words(self.geometry, group);
            if offset < words {
                return name_at(self.geometry, group, offset);
            }
            offset -= words;
        }
        unreachable!()
    }
}
