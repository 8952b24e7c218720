//! A caller at work on blocks of one size class, and the superblock that it has at hand.

ghost use Rattle.std.specs.Prelude.{◌≡◌, ◌<◌, ◌≤◌, ◌*◌};
ghost use Rattle.heap_geometry.specs.Geometry.{IsChecked};
ghost use Rattle.heap_geometry.specs.Need.{block_count_of};
ghost use Rattle.heap_geometry.specs.Place.{block_place};
ghost use Rattle.heap_geometry.specs.declared.geometry.Geometry.{Geometry};
ghost use Rattle.heap_geometry.specs.declared.limits.TheConstants.{CLASSES, FRAME_WORDS, MAX_HEAPS};
ghost use Rattle.packed_words.specs.Info.{info_word};
ghost use Rattle.packed_words.specs.Anchor.{IsAnchor};
ghost use Rattle.word_table.specs.Counts.{descriptor_count};
ghost use Rattle.word_table.specs.Seats.{SeatFields, IsSeat, heap_of, desc_named, info_in, anchor_in};
ghost use Rattle.word_table.specs.Sites.{info_at};
ghost use Rattle.word_table.specs.declared.limits.TheConstants.{MAX_DESCRIPTORS};

use crate::group::descriptor_count;
use heap_geometry::geometry::Geometry;
use heap_geometry::limits::FRAME_WORDS;
use heap_geometry::need::{block_count, block_words};
use packed_words::anchor::Anchor;
use packed_words::info::Info;
use packed_words::widths::{CLASS_AT, HEAP_AT};
use std::marker::Model;

/// A caller of a heap, at work on blocks of one size class. The heap's numbers are kept in few bytes,
/// since every point has a seat; the caller's processor heap is kept beside them, since each call asks for it.
#[derive(Clone, Copy)]
pub struct Seat {
    turn_limit: u64,
    frames: u16,
    heaps: u8,
    units: u8,
    callers: u8,
    caller: u8,
    heap: u8,
    class: u8,
}

impl Model for Seat {
    ghost use Rattle.std.specs.Prelude.{◌≡◌, ◌%◌};
    ghost use Rattle.std.proofs.Common.{ap, sym};
    ghost use Rattle.word_table.specs.Seats.{SeatFields, IsSeat, heap_of};

    ghost Value = { SeatFields };

    ghost view = { λ s. record { geometry = record { frames = s.frames; heaps = s.heaps; units = s.units; callers = s.callers; turn_limit = s.turn_limit }; caller = s.caller; class = s.class } };

    ghost invariant = { λ s. IsSeat (record { geometry = record { frames = s.frames; heaps = s.heaps; units = s.units; callers = s.callers; turn_limit = s.turn_limit }; caller = s.caller; class = s.class }) × (s.heap ≡ s.caller % s.heaps) };

    ghost inverse = { λ s. record { turn_limit = s.geometry.turn_limit; frames = s.geometry.frames; heaps = s.geometry.heaps; units = s.geometry.units; callers = s.geometry.callers; caller = s.caller; heap = heap_of s; class = s.class } };

    ghost inverse_ok = { λ s h. ap (λ heap. record { turn_limit = s.turn_limit; frames = s.frames; heaps = s.heaps; units = s.units; callers = s.callers; caller = s.caller; heap = heap; class = s.class }) (sym h.1) };
}

impl Seat {
    /// The seat of this caller of a heap with these numbers, for blocks of this class.
    pub fn new(geometry: Geometry, caller: u8, class: u8) -> Seat
        requires { IsSeat (record { geometry = geometry; caller = caller; class = class }) }
        ensures { result ≡ record { geometry = geometry; caller = caller; class = class } }
    {
        Seat {
            turn_limit: geometry.turn_limit,
            frames: geometry.frames as u16,
            heaps: geometry.heaps as u8,
            units: geometry.units as u8,
            callers: geometry.callers as u8,
            caller,
            heap: caller % geometry.heaps as u8,
            class,
        }
    }

    /// The same caller, at work on blocks of this class.
    pub fn of_class(self, class: u8) -> Seat
        requires { class < CLASSES }
        ensures { result ≡ record self { class = class } }
    {
        let mut seat = self;
        seat.class = class;
        seat
    }

    /// The heap's numbers.
    pub fn geometry(self) -> Geometry
        ensures value { result ≡ self.geometry }
        ensures checked { IsChecked result }
    {
        Geometry {
            frames: u32::from(self.frames),
            heaps: u32::from(self.heaps),
            units: u32::from(self.units),
            callers: u32::from(self.callers),
            turn_limit: self.turn_limit,
        }
    }

    /// The caller's number.
    pub fn caller(self) -> u8
        ensures value { result ≡ self.caller }
        ensures within { result < self.geometry.callers }
    {
        self.caller
    }

    /// The size class.
    pub fn class(self) -> u8
        ensures value { result ≡ self.class }
        ensures within { result < CLASSES }
    {
        self.class
    }

    /// The processor heap that the caller uses.
    pub fn heap(self) -> u8
        ensures value { result ≡ heap_of self }
        ensures within { result < self.geometry.heaps }
    {
        self.heap
    }

    /// How many descriptors the heap has.
    pub fn descriptors(self) -> u32
        ensures value { result ≡ descriptor_count self.geometry }
        ensures within { result ≤ MAX_DESCRIPTORS }
    {
        descriptor_count(self.geometry())
    }

    /// How many blocks a superblock of the class has.
    pub fn block_count(self) -> u16
        ensures value { result ≡ block_count_of self.class }
        ensures least { 2 ≤ result }
        ensures most { 2 * result ≤ FRAME_WORDS }
    {
        block_count(self.class) as u16
    }

    /// The place of a frame's block.
    pub fn place(self, frame: u16, index: u16) -> u32
        ensures { result ≡ block_place frame self.class index }
    {
        FRAME_WORDS * u32::from(frame) + u32::from(index) * block_words(self.class)
    }

    /// The descriptor that a number names as its index plus 1; `None` where it is 0 or the heap has
    /// no such descriptor.
    pub fn desc_named(self, number: u64) -> Option<u16>
        ensures { result ≡ desc_named self.geometry number }
    {
        if number >= 1 && number <= u64::from(self.descriptors()) {
            Some((number - 1) as u16)
        } else {
            None
        }
    }

    /// What a descriptor's word says of its superblock; `None` where it is no such word, or names a
    /// frame or a processor heap that the heap hasn't.
    pub fn info(self, word: u64) -> Option<Info>
        ensures { result ≡ info_in self.geometry word }
    {
        let info = Info::unpack(word)?;
        if info.frame() < self.frames && info.heap() < self.heaps {
            Some(info)
        } else {
            None
        }
    }

    /// The anchor that a word says; `None` where its first available block is none of the class.
    pub fn anchor(self, word: u64) -> Option<Anchor>
        ensures { result ≡ anchor_in self.class word }
    {
        let anchor = Anchor::unpack(word);
        if anchor.avail() < self.block_count() {
            Some(anchor)
        } else {
            None
        }
    }
}

/// A superblock at hand.
#[derive(Clone, Copy)]
pub struct Site {
    /// For whom, and of which class.
    pub seat: Seat,
    /// Its descriptor.
    pub desc: u16,
    /// The frame that it fills.
    pub frame: u16,
}

impl Site {
    /// The word that says of the superblock that it fills this frame, for this seat.
    pub fn info_word(&self) -> u64
        ensures { result ≡ info_word (info_at self.now) }
    {
        u64::from(self.frame)
            + u64::from(self.seat.heap()) * (1 << HEAP_AT)
            + u64::from(self.seat.class()) * (1 << CLASS_AT)
    }

    /// The place of one of the superblock's blocks.
    pub fn place(&self, index: u16) -> u32
        ensures { result ≡ block_place self.now.frame self.now.seat.class index }
    {
        self.seat.place(self.frame, index)
    }
}
