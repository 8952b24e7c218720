//! How pieces of the arena are laid: each by the pass whose caller is about to use it first.

ghost use Rattle.std.specs.Prelude.{ℕ, ◌≡◌, ◌<◌, ◌≤◌, ◌+◌, [], None};
ghost use Rattle.word_table.specs.Counts.{arena_words};
ghost use Rattle.sound_laws.specs.uses.Pieces.{piece_count, piece_of, piece_start, piece_words};
ghost use Rattle.live_heap.specs.Pieces.{EachOf, HasLaid, IsReady, IsSoleOpener, KnowsMore, mark_count};
ghost use Rattle.live_heap.specs.Sights.{IsSightOf};
ghost use Rattle.word_table.specs.Occurs.{occurs};

use crate::heap::Heap;
use crate::placement::{APART, Placement};
use crate::plays::{Claims, Laying, Lays};
use crate::shelves::ShelfRule;
use crate::view::View;
use atomic_region::Seat;
use errand_steps::errand::Errand;
use errand_steps::point::Pieces;
use heap_geometry::limits::{FRAME_WORDS, UNIT_WORDS};
use heap_geometry::place::{place_of_unit, unit_of};
use std::marker::Brand;

/// The mark of a piece that was never laid, and of a caller whose pass has no block's words out, and had none since it rested.
pub(crate) const BLANK: u64 = 0;

/// The mark of a piece that a pass has out, to lay it, and of a caller whose pass may have a block's words out.
pub(crate) const OUT: u64 = 1;

/// The mark of a piece that is laid.
pub(crate) const LAID: u64 = 2;

impl<R: ShelfRule> Heap<R> {
    /// Lays the pieces that the errand's next step is the first to use, unless they were laid before.
    #[inline(always)]
    pub(crate) fn make_ready(&self, seat: &mut Seat<View>, errand: &Errand)
        requires table { seat.old.region ≡ self.now.region }
        requires empty { seat.old.me.1 ≡ [] }
        requires settled { seat.old.me.0.lays ≡ None }
        requires sight { IsSightOf self.now.layout seat.old.me.0 errand.now }
        ensures region { seat.new.region ≡ seat.old.region }
        ensures knows { KnowsMore seat.old.me seat.new.me }
        ensures ready { IsReady self.now.layout errand.now.point seat.new.me.0 }
    {
        if let Some(pieces) = errand.opens() {
            self.lay_pieces(seat, pieces);
        }
    }

    /// Lays pieces, unless they were laid before.
    #[cold]
    #[inline(never)]
    fn lay_pieces(&self, seat: &mut Seat<View>, pieces: Pieces)
        requires table { seat.old.region ≡ self.now.region }
        requires empty { seat.old.me.1 ≡ [] }
        requires settled { seat.old.me.0.lays ≡ None }
        requires opens { EachOf pieces (λ k. IsSoleOpener self.now.layout seat.old.me.0 k) }
        requires within { pieces.first + pieces.count ≤ piece_count self.now.layout }
        ensures region { seat.new.region ≡ seat.old.region }
        ensures knows { KnowsMore seat.old.me seat.new.me }
        ensures ready { EachOf pieces (λ k. 0 < occurs k seat.new.me.0.ready) }
    {
        for piece in pieces.first..pieces.first + pieces.count {
            self.lay_piece::<Brand>(seat, piece);
        }
    }

    /// Lays the piece that `L` names for the proof, unless it was laid before. Nobody else can have it out, since no
    /// other caller is about to use it first.
    fn lay_piece<L: Laying>(&self, seat: &mut Seat<View>, piece: u32)
        requires table { seat.old.region ≡ self.now.region }
        requires empty { seat.old.me.1 ≡ [] }
        requires settled { seat.old.me.0.lays ≡ None }
        requires named { (L.layout ≡ self.now.layout) × (L.piece ≡ piece) }
        requires opens { IsSoleOpener self.now.layout seat.old.me.0 piece }
        ensures region { seat.new.region ≡ seat.old.region }
        ensures laid { HasLaid piece seat.old.me.0 seat.new.me }
    {
        let shared = &self.table.shared;
        let start = self.table.start();
        let mark = self.layout.count() as usize + piece as usize;
        let found = shared.compare_exchange::<Claims<L>>(seat, start, mark, BLANK, OUT);
        if found != BLANK {
            return;
        }
        let mut words = seat.lift();
        let first = piece_start(&self.layout, piece) as usize;
        let end = first + piece_words(&self.layout, piece) as usize;
        words.fill(start, first, end, 0);
        seat.carry(words);
        shared.store::<Lays<L>>(seat, start, mark, LAID);
    }
}

/// The first word of a piece.
fn piece_start(layout: &Placement, piece: u32) -> u32
    requires { piece < piece_count layout.now }
    ensures { result ≡ piece_start layout.now piece }
{
    let frames = layout.geometry().frames;
    if piece < frames {
        FRAME_WORDS * piece
    } else {
        place_of_unit(frames, piece - frames)
    }
}

/// The piece in which a word of the arena lies.
pub(crate) fn piece_of(layout: &Placement, word: u32) -> u32
    requires { word < arena_words layout.now }
    ensures value { result ≡ piece_of layout.now word }
    ensures within { result < piece_count layout.now }
{
    let frames = layout.geometry().frames;
    if word < FRAME_WORDS * frames {
        word / FRAME_WORDS
    } else {
        frames + unit_of(frames, word)
    }
}

/// How many words a piece has.
fn piece_words(layout: &Placement, piece: u32) -> u32
    ensures { result ≡ piece_words layout.now piece }
{
    if piece < layout.geometry().frames {
        FRAME_WORDS
    } else {
        UNIT_WORDS
    }
}

/// How many marks a heap has: one for each piece, and behind them, each apart from the others, one for each caller.
pub(crate) fn mark_count(layout: &Placement) -> u32
    ensures { result ≡ mark_count layout.now }
{
    let geometry = layout.geometry();
    geometry.frames + geometry.units + APART * (geometry.callers + 1)
}
