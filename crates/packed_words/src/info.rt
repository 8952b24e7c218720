//! What a descriptor says of its superblock.

ghost use Rattle.std.specs.Prelude.{◌≡◌, ◌<◌};
ghost use Rattle.heap_geometry.specs.declared.limits.TheConstants.{MAX_FRAMES, MAX_HEAPS, CLASSES};
ghost use Rattle.packed_words.specs.Fields.{Reads};
ghost use Rattle.packed_words.specs.Info.{InfoFields, IsInfo, info_word, info_of};

use crate::widths::{CLASS_AT, FRAME_BITS, HEAP_AT, HEAP_BITS};
use heap_geometry::limits::{CLASSES, MAX_FRAMES, MAX_HEAPS};
use std::marker::Model;

const FRAME_MASK: u64 = (1 << FRAME_BITS) - 1;

const HEAP_MASK: u64 = (1 << HEAP_BITS) - 1;

/// Where a superblock lies, and whose it is.
#[derive(Clone, Copy, Debug, PartialEq, Eq)]
pub struct Info {
    frame: u16,
    heap: u8,
    class: u8,
}

impl Model for Info {
    ghost Value = { InfoFields };

    ghost view = { λ i. record { frame = i.frame; heap = i.heap; class = i.class } };

    ghost invariant = { λ i. IsInfo (record { frame = i.frame; heap = i.heap; class = i.class }) };

    ghost inverse = { λ i. record { frame = i.frame; heap = i.heap; class = i.class } };
}

impl Info {
    /// The superblock in this frame, of this processor heap and this class.
    pub fn new(frame: u16, heap: u8, class: u8) -> Info
        requires frame { frame < MAX_FRAMES }
        requires heap { heap < MAX_HEAPS }
        requires class { class < CLASSES }
        ensures { result ≡ record { frame = frame; heap = heap; class = class } }
    {
        Info { frame, heap, class }
    }

    /// The frame that the superblock fills.
    pub fn frame(self) -> u16
        ensures value { result ≡ self.frame }
        ensures within { result < MAX_FRAMES }
    {
        self.frame
    }

    /// The processor heap that the superblock was last taken for.
    pub fn heap(self) -> u8
        ensures value { result ≡ self.heap }
        ensures within { result < MAX_HEAPS }
    {
        self.heap
    }

    /// The size class of the superblock's blocks.
    pub fn class(self) -> u8
        ensures value { result ≡ self.class }
        ensures within { result < CLASSES }
    {
        self.class
    }

    /// The word that says it.
    pub fn pack(self) -> u64
        ensures word { result ≡ info_word self }
        ensures back { info_of result ≡ Some self }
    {
        u64::from(self.frame) | u64::from(self.heap) << HEAP_AT | u64::from(self.class) << CLASS_AT
    }

    /// What a word says; `None` where it says nothing within the limits of a heap.
    pub fn unpack(word: u64) -> Option<Info>
        ensures value { result ≡ info_of word }
        ensures exact { Reads IsInfo info_word word result }
    {
        let frame = word & FRAME_MASK;
        let heap = word >> HEAP_AT & HEAP_MASK;
        let class = word >> CLASS_AT;
        if frame < u64::from(MAX_FRAMES)
            && heap < u64::from(MAX_HEAPS)
            && class < u64::from(CLASSES)
        {
            Some(Info {
                frame: frame as u16,
                heap: heap as u8,
                class: class as u8,
            })
        } else {
            None
        }
    }
}
