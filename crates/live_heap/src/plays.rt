//! The rule of the table, and what its steps tell whoever makes them.

use crate::shelves::ShelfRule;
use crate::view::View;
use atomic_region::{Play, RegionRule};
use atomic_table::{Join, Split};
use heap_geometry::geometry::Geometry;
use std::marker::{Brand, PhantomData};

/// The words, the errands and the longest list that was seen are a state that callers reach; the pieces are laid that
/// were used; and what lies on a shelf keeps the rule of words there.
pub struct Reachable<R> {
    shelves: PhantomData<R>,
}

impl<R: ShelfRule> RegionRule<View, Geometry> for Reachable<R> {
    ghost use Rattle.live_heap.specs.Pieces.{PiecesHold};
    ghost use Rattle.live_heap.specs.Views.{opening_view};

    ghost holds = { PiecesHold R.allows };

    ghost first = { opening_view };
}

/// The errand whose step is made. Each step names it for the proof.
pub trait Doing {
    ghost use Rattle.errand_steps.specs.Errands.{ErrandFields};

    ghost errand: { ErrandFields };
}

impl Doing for Brand {
    ghost use Rattle.step_machine.specs.Cores.{no_errand};

    ghost errand = { no_errand };
}

/// A step that finds a number.
pub struct Finds<E, R> {
    errand: PhantomData<E>,
    shelves: PhantomData<R>,
}

impl<E: Doing, R: ShelfRule> Play<View> for Finds<E, R> {
    ghost use Rattle.live_heap.specs.Sights.{SawByRule};

    ghost then = { λ st before n after. SawByRule R.allows E.errand n before after };
}

/// A store, which tells nothing of what it found.
pub struct Stores<E, R> {
    errand: PhantomData<E>,
    shelves: PhantomData<R>,
}

impl<E: Doing, R: ShelfRule> Play<View> for Stores<E, R> {
    ghost use Rattle.std.specs.Prelude.{ℕ};
    ghost use Rattle.live_heap.specs.Sights.{SawByRule};

    ghost then = { λ st before n after. (found : ℕ) × SawByRule R.allows E.errand found before after };
}

/// The piece that is laid, of a heap with these numbers. Each step names it for the proof.
pub trait Laying {
    ghost use Rattle.std.specs.Prelude.{ℕ};
    ghost use Rattle.heap_geometry.specs.declared.geometry.Geometry.{Geometry};

    ghost layout: { Geometry };

    ghost piece: { ℕ };
}

impl Laying for Brand {
    ghost use Rattle.live_heap.specs.Pieces.{no_layout};

    ghost layout = { no_layout };

    ghost piece = { 0 };
}

/// A claim of a piece: whoever finds that it was never laid has it out.
pub struct Claims<L> {
    piece: PhantomData<L>,
}

impl<L: Laying> Play<View> for Claims<L> {
    ghost use Rattle.live_heap.specs.Pieces.{Claimed};

    ghost then = { λ st before n after. Claimed L.layout L.piece before.0 n after };
}

/// A piece comes back, and is laid.
pub struct Lays<L> {
    piece: PhantomData<L>,
}

impl<L: Laying> Play<View> for Lays<L> {
    ghost use Rattle.live_heap.specs.Pieces.{HasLaid};

    ghost then = { λ st before n after. HasLaid L.piece before.0 after };
}

/// The caller's errand and a block of its own, with the numbers that are in its words; the calls on words that are made
/// when they come back, and the blocks that are shown as out meanwhile. Each step that takes the words out or gives them
/// back names it for the proof.
pub trait Lending {
    ghost use Rattle.errand_steps.specs.Errands.{ErrandFields};
    ghost use Rattle.std.specs.Prelude.{List};
    ghost use Rattle.sound_laws.specs.events.Made.{Made};
    ghost use Rattle.live_heap.specs.declared.view.Lent.{Lent};

    ghost owner: { ErrandFields };

    ghost block: { Lent };

    ghost made: { List Made };

    ghost shown: { List Lent };
}

impl Lending for Brand {
    ghost use Rattle.live_heap.specs.Lending.{no_block};
    ghost use Rattle.step_machine.specs.Cores.{no_errand};
    ghost use Rattle.std.specs.Prelude.{[]};

    ghost owner = { no_errand };

    ghost block = { no_block };

    ghost made = { [] };

    ghost shown = { [] };
}

/// The usable words of the block go out with the pass.
pub struct Lends<L> {
    block: PhantomData<L>,
}

impl<L: Lending> Play<View> for Lends<L> {
    ghost use Rattle.live_heap.specs.Lending.{HasLent};

    ghost then = { λ st before n after. HasLent L.block.place L.block.need before.0 after };
}

/// They go out where the caller's mark says that words may be out. Else nothing changes.
pub struct LendsMarked<L> {
    block: PhantomData<L>,
}

impl<L: Lending> Play<View> for LendsMarked<L> {
    ghost use Rattle.live_heap.specs.Lending.{LendsWhere};

    ghost then = { λ st before n after. LendsWhere L.block.place L.block.need n before after };
}

/// The caller's mark is cleared, and nothing else changes.
pub struct Rests;

impl Play<View> for Rests {
    ghost use Rattle.std.specs.Prelude.{◌≡◌};

    ghost then = { λ st before n after. after ≡ before };
}

/// They come back, and the calls are made.
pub struct Returns<L> {
    block: PhantomData<L>,
}

impl<L: Lending> Play<View> for Returns<L> {
    ghost use Rattle.live_heap.specs.Lending.{HasReturned};

    ghost then = { λ st before n after. HasReturned L.owner L.block L.made L.shown before.0 after };
}

/// The first caller stays with one seat, and the others go to another.
pub struct Peels;

impl Split<View> for Peels {
    ghost use Rattle.live_heap.specs.Views.{first_part, other_part};

    ghost left = { first_part };

    ghost right = { other_part };
}

/// One seat stands for the callers of both, and has seen what either saw.
pub struct Gathers;

impl Join<View> for Gathers {
    ghost use Rattle.live_heap.specs.Views.{gathered, spent_view};

    ghost both = { gathered };

    ghost spent = { spent_view };
}
