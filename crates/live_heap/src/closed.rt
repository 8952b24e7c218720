//! How a heap closes, and what is left of it.

ghost use Rattle.std.specs.Prelude.{ℕ, ◌≡◌, ◌==◌, ◌<◌, ◌≤◌, ◌-◌, ◌*◌, ◌^◌, min, sum_by, length, slice_index, All, Any, IfOk};
ghost use Rattle.std.specs.List.{list_all};
ghost use Rattle.std.specs.Result.{IfErr};
ghost use Rattle.word_table.specs.Table.{Exists};
ghost use Rattle.word_table.specs.Words.{word_in};
ghost use Rattle.errand_steps.specs.Begins.{IsIdle};
ghost use Rattle.sound_laws.specs.bounds.Contention.{lost_of, won_of};
ghost use Rattle.sound_state.specs.Sums.{callers_sum};
ghost use Rattle.step_machine.specs.Cores.{errand_at};
ghost use Rattle.sound_laws.specs.uses.Pieces.{piece_count};
ghost use Rattle.plain_words.specs.Places.{numbers};
ghost use Rattle.live_heap.specs.Pieces.{AreMarked, mark_place};
ghost use Rattle.live_heap.specs.Endings.{AreAllIdle, HasAccesses, HasClosed, IsGathered, IsResting};

use crate::heap::Heap;
use crate::laying::{LAID, piece_of};
use crate::pass::Pass;
use crate::placement::Placement;
use crate::plays::Gathers;
use crate::shelves::{AnyWords, ShelfRule};
use crate::view::View;
use atomic_region::Seat;
use heap_geometry::geometry::Geometry;
use plain_words::Room;
use std::alloc::Global;
use std::marker::Model;
use std::snapshot::Snapshot;
use word_table::name::WordName;

/// A heap that no thread shares any more. It holds the words; contracts see beside them in which region it lay, the
/// errand of each caller, all idle, the whole history and all that callers won from each other, which take no memory.
pub struct Closed {
    room: Room<Global>,
    layout: Placement,
    last: Snapshot<Seat<View>>,
    won: u64,
    lost: u64,
}

impl Model for Closed {
    ghost use Rattle.std.specs.Prelude.{◌≡◌};
    ghost use Rattle.plain_words.specs.Places.{numbers};
    ghost use Rattle.live_heap.specs.placement.Places.{words_at};
    ghost use Rattle.live_heap.specs.Endings.{ClosedFields, IsCounted, IsResting, closed_with};
    ghost use Rattle.live_heap.specs.Pieces.{AreMarked};

    ghost Value = { ClosedFields };

    ghost view = { λ s. closed_with s.layout s.last.value.region (words_at s.layout (numbers s.room.plain.places)) s.last.value.me.0 };

    ghost invariant = { λ s. record { lies : s.room.backing.start.at ≡ s.last.value.region.at; marked : AreMarked s.layout s.room.plain.places; rests : IsResting (closed_with s.layout s.last.value.region (words_at s.layout (numbers s.room.plain.places)) s.last.value.me.0); counts : IsCounted (closed_with s.layout s.last.value.region (words_at s.layout (numbers s.room.plain.places)) s.last.value.me.0) s.won s.lost } };
}

/// What is refused where a block's words are out with a pass: nothing has changed.
#[derive(Drop)]
pub struct CloseRefused<R: ShelfRule = AnyWords> {
    pub heap: Heap<R>,
    pub passes: Vec<Pass>,
}

/// A seat that has taken passes in, and what they won and lost together, each at most 2^64 - 1.
struct Gathered {
    seat: Seat<View>,
    won: u64,
    lost: u64,
}

impl<R: ShelfRule> Heap<R> {
    /// Takes all passes in, each in no call, and ends the sharing. Blocks that are still held stay live. It takes no
    /// memory; it is refused only where a block's words are out with one of the passes.
    pub fn close(self, _alloc: Global, passes: Vec<Pass>) -> Result<Closed, CloseRefused<R>>
        requires { AreAllIdle self passes.items }
        ensures closed { IfOk result (λ closed. HasClosed self passes.items closed) }
        ensures rests { IfOk result (λ closed. IsResting closed) }
        ensures accesses { IfOk result (λ closed. HasAccesses closed passes.items) }
        ensures always { All (λ pass. pass.out ≡ 0) passes.items → IfErr result (λ refused. ⊥) }
        ensures kept { IfErr result (λ refused. (refused.heap ≡ self) × (refused.passes.items ≡ passes.items) × Any (λ pass. 0 < pass.out) passes.items) }
    {
        if !are_home(&passes) {
            return Err(CloseRefused { heap: self, passes });
        }
        let Gathered { seat, won, lost } = self.gather(passes);
        let last = Snapshot::of(&seat);
        let (room, layout) = self.end(seat);
        Ok(Closed {
            room,
            layout,
            last,
            won,
            lost,
        })
    }

    /// The seat that takes all passes in, and their counts.
    fn gather(&self, mut passes: Vec<Pass>) -> Gathered
        requires idle { AreAllIdle self.now passes.items }
        requires home { All (λ pass. pass.out ≡ 0) passes.items }
        ensures { IsGathered self.now passes.items result.seat result.won result.lost }
    {
        let shared = &self.table.shared;
        let start = self.table.start();
        let mark = self.first_mark();
        let Pass {
            mut seat,
            errand,
            out: _,
        } = passes.pop().unwrap();
        let mut won = errand.won();
        let mut lost = errand.lost();
        while let Some(pass) = passes.pop() {
            let Pass {
                seat: other,
                errand,
                out: _,
            } = pass;
            won = won.saturating_add(errand.won());
            lost = lost.saturating_add(errand.lost());
            shared.join_seat::<Gathers>(&mut seat, other, start, mark);
        }
        Gathered { seat, won, lost }
    }
}

impl Closed {
    /// The heap's numbers.
    pub fn geometry(&self) -> Geometry
        ensures value { result ≡ self.now.geometry }
        ensures rests { IsResting self.now }
    {
        self.layout.geometry()
    }

    /// The word of this name. A word of the arena that nobody used is 0, and its memory isn't touched.
    pub fn word(&self, name: WordName) -> u64
        requires { Exists self.now.geometry name }
        ensures { result ≡ word_in self.now.geometry self.now.words name }
    {
        match name {
            WordName::Arena(word)
                if !is_laid(&self.room, &self.layout, piece_of(&self.layout, word)) => { 0 }
            _ => self.room.word(self.layout.place(name) as usize),
        }
    }

    /// How many exchanges all callers won, at most 2^64 - 1.
    pub fn won(&self) -> u64
        ensures { result ≡ min (callers_sum self.now.geometry won_of (errand_at self.now.errands)) (2 ^ 64 - 1) }
    {
        self.won
    }

    /// How many they lost, at most 2^64 - 1: at most those that they won, times the other callers. So
    /// each lost exchange stands for another caller's success.
    pub fn lost(&self) -> u64
        ensures value { result ≡ min (callers_sum self.now.geometry lost_of (errand_at self.now.errands)) (2 ^ 64 - 1) }
        ensures list { callers_sum self.now.geometry lost_of (errand_at self.now.errands) ≤ (self.now.geometry.callers - 1) * length self.now.wins }
        ensures won { ((caller : ℕ) → caller < self.now.geometry.callers → (errand_at self.now.errands caller).won < 2 ^ 64 - 1)
            → callers_sum self.now.geometry lost_of (errand_at self.now.errands)
            ≤ (self.now.geometry.callers - 1) * callers_sum self.now.geometry won_of (errand_at self.now.errands) }
    {
        self.lost
    }
}

/// Whether no block's words are out with any of the passes.
fn are_home(passes: &[Pass]) -> bool
    ensures { result ≡ list_all (λ pass. pass.out == 0) passes.now }
{
    passes.iter().all(|pass| pass.out == 0)
}

/// Whether a piece was laid, by its mark.
fn is_laid(room: &Room<Global>, layout: &Placement, piece: u32) -> bool
    requires marked { AreMarked layout.now room.now.plain.places }
    requires piece { piece < piece_count layout.now }
    ensures { result ≡ (slice_index (numbers room.now.plain.places) (mark_place layout.now piece) == 2) }
{
    room.word(layout.count() as usize + piece as usize) == LAID
}

impl Drop for Closed {
    fn drop(self) {
        let Self {
            room,
            layout: _,
            last: _,
            won: _,
            lost: _,
        } = self;
        drop(room);
    }
}
