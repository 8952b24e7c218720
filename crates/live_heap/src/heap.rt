//! A heap, and how it opens.

ghost use Rattle.std.specs.Prelude.{ℕ, true, false, ◌≡◌, ◌<◌, ◌+◌, ◌≤◌, [], length, vec_capacity, IfOk};
ghost use Rattle.heap_geometry.specs.Geometry.{IsChecked};
ghost use Rattle.live_heap.specs.Pieces.{HasOut, PiecesHold, mark_count, mark_place};
ghost use Rattle.live_heap.specs.placement.Places.{place, placed_count};
ghost use Rattle.plain_words.specs.Places.{AllHere};
ghost use Rattle.atomic_region.specs.Region.{Final, Seen};
ghost use Rattle.word_table.specs.Counts.{word_count};
ghost use Rattle.word_table.specs.Table.{Exists, word_index};

use crate::laying::{OUT, mark_count};
use crate::opened::first_room;
use crate::pass::Pass;
use crate::placement::Placement;
use crate::plays::{Peels, Reachable};
use crate::shelves::{AnyWords, ShelfRule};
use crate::view::View;
use atomic_region::{Closed, Region, Seat};
use errand_steps::errand::Errand;
use heap_geometry::geometry::Geometry;
use plain_words::{Room, Start};
use std::alloc::{AllocError, Global};
use std::marker::Model;
use word_table::name::WordName;

/// A heap of a fixed arena. Threads share it by reference, each with a pass of its own. What lies on its shelves keeps the
/// rule `R`.
///
/// No call on a pass takes memory, waits or takes a lock; each returns. Where a thread stops for ever in
/// the middle of a call, the others go on.
pub struct Heap<R: ShelfRule = AnyWords> {
    pub(crate) table: Region<View, Geometry, Reachable<R>, Global>,
    pub(crate) layout: Placement,
    ghost laid: { (table.shared.id.words ≡ placed_count layout + mark_count layout) × (table.shared.key ≡ layout) },
    ghost checked: { IsChecked layout },
}

impl<R: ShelfRule> Model for Heap<R> {
    ghost use Rattle.live_heap.specs.Heaps.{HeapFields};

    ghost Value = { HeapFields };

    ghost view = { λ h. record { layout = h.layout; region = h.table.shared.id; long = h.laid.0; checked = h.checked } };
}

impl Heap {
    ghost use Rattle.live_heap.specs.Passes.{AreFrom};

    /// A heap with these numbers, and one pass for each caller in the order of their numbers. Nothing has
    /// happened in it. Any words may lie on its shelves.
    pub fn open(alloc: Global, geometry: Geometry) -> Result<(Heap, Vec<Pass>), AllocError>
        requires { IsChecked geometry }
        ensures heap { IfOk result (λ opened. opened.0.layout ≡ geometry) }
        ensures passes { IfOk result (λ opened. AreFrom opened.0 0 opened.1.items × (length opened.1.items ≡ geometry.callers)) }
    {
        Heap::open_with_rule(alloc, geometry)
    }
}

impl<R: ShelfRule> Heap<R> {
    ghost use Rattle.live_heap.specs.Endings.{IsAtRest};
    ghost use Rattle.live_heap.specs.Passes.{AreFrom};
    ghost use Rattle.live_heap.specs.Views.{opening_view, idle_view};

    /// The same, with a rule for the words on its shelves.
    pub fn open_with_rule(
        alloc: Global,
        geometry: Geometry,
    ) -> Result<(Heap<R>, Vec<Pass>), AllocError>
        requires { IsChecked geometry }
        ensures heap { IfOk result (λ opened. opened.0.layout ≡ geometry) }
        ensures passes { IfOk result (λ opened. AreFrom opened.0 0 opened.1.items × (length opened.1.items ≡ geometry.callers)) }
    {
        let mut passes = Vec::with_capacity(alloc, geometry.callers as usize)?;
        let (heap, seat) = Heap::lay(alloc, geometry)?;
        let seat = heap.deal(&mut passes, seat);
        passes.push_reserved(Pass {
            seat,
            errand: Errand::open(geometry.callers - 1, geometry),
            out: 0,
        });
        Ok((heap, passes))
    }

    /// The table of a heap before the first step, and the seat that stands for all callers.
    fn lay(alloc: Global, geometry: Geometry) -> Result<(Heap<R>, Seat<View>), AllocError>
        requires { IsChecked geometry }
        ensures { IfOk result (λ laid. (laid.0.layout ≡ geometry) × (laid.1.region ≡ laid.0.region)
            × (laid.1.me ≡ (opening_view geometry, []))) }
    {
        let layout = Placement::new(geometry);
        let room = first_room(alloc, &layout)?;
        let (table, seat) = Region::open(room, &geometry);
        Ok((Heap { table, layout }, seat))
    }

    /// The passes of all callers but the last, and the seat that is left for that one.
    fn deal(&self, passes: &mut Vec<Pass>, seat: Seat<View>) -> Seat<View>
        requires room { (passes.old.items ≡ []) × (self.now.layout.callers ≤ vec_capacity passes.old) }
        requires seat { (seat.region ≡ self.now.region) × (seat.me ≡ (opening_view self.now.layout, [])) }
        ensures passes { AreFrom self.now 0 passes.new.items × (length passes.new.items + 1 ≡ self.now.layout.callers)
            × (vec_capacity passes.new ≡ vec_capacity passes.old) }
        ensures seat { (result.region ≡ self.now.region)
            × (result.me ≡ (idle_view self.now.layout (length passes.new.items) 1, [])) }
    {
        let shared = &self.table.shared;
        let start = self.table.start();
        let mark = self.first_mark();
        let geometry = self.layout.geometry();
        let mut rest = seat;
        for caller in 0..geometry.callers - 1 {
            let next = shared.split_seat::<Peels>(&mut rest, start, mark);
            passes.push_reserved(Pass {
                seat: rest,
                errand: Errand::open(caller, geometry),
                out: 0,
            });
            rest = next;
        }
        rest
    }

    /// The heap's numbers.
    pub fn geometry(&self) -> Geometry
        ensures value { result ≡ self.now.layout }
        ensures checked { IsChecked result }
    {
        self.layout.geometry()
    }

    /// Where the heap's memory begins: 8 bytes behind a multiple of 16. It owns nothing.
    #[inline(always)]
    pub fn start(&self) -> Start
        ensures { result.at ≡ self.now.region.at }
    {
        self.table.start()
    }

    /// The place of a word in memory.
    #[inline(always)]
    pub(crate) fn index(&self, name: WordName) -> usize
        requires { Exists self.now.layout name }
        ensures number { word_index self.now.layout name < word_count self.now.layout }
        ensures place { result ≡ place self.now.layout (word_index self.now.layout name) }
        ensures within { result < self.now.region.words }
    {
        self.layout.place(name) as usize
    }

    /// The place of the mark of the first piece. A seat is cut, or taken in, at a load of it.
    pub(crate) fn first_mark(&self) -> usize
        ensures place { result ≡ mark_place self.now.layout 0 }
        ensures within { result < self.now.region.words }
    {
        self.layout.count() as usize
    }

    /// All memory as it is in the end, where the seat has this view: all callers' views in one, and each caller in no
    /// call. So nothing is out.
    pub(crate) fn end(self, seat: Seat<View>) -> (Room<Global>, Placement)
        requires table { seat.region ≡ self.region }
        requires rests { IsAtRest self.layout seat.me.0 }
        ensures layout { result.1 ≡ self.layout }
        ensures start { result.0.backing.start.at ≡ self.region.at }
        ensures last { Final (Seen (PiecesHold R.allows result.1) seat.id seat.me.0) result.0.plain.places }
    {
        let Self { table, layout } = self;
        (table.close_with(seat).into_room(), layout)
    }
}

impl<R: ShelfRule> Drop for Heap<R> {
    /// All memory goes back. Where a pass was stopped while it laid a piece, or a caller's mark says that a block's words may
    /// be out, the memory stays allocated: each pass that had some out says by `rest` that they are home.
    fn drop(self) {
        let Self { table, layout } = self;
        let closed = table.close();
        if all_at_home::<R>(&closed, &layout) {
            drop(closed.into_room());
        }
    }
}

/// Whether each mark says that nothing is out: no piece with a pass that lays it, and no block's words with a pass.
fn all_at_home<R: ShelfRule>(closed: &Closed<Global>, layout: &Placement) -> bool
    requires { Final (PiecesHold R.allows layout.now) closed.now.plain.places }
    ensures home { result ≡ true → AllHere closed.now.plain.places }
    ensures out { result ≡ false → HasOut layout.now closed.now.plain.places }
{
    let marks = layout.count() as usize;
    for mark in 0..mark_count(layout) as usize {
        if closed.word(marks + mark) == OUT {
            return false;
        }
    }
    true
}
