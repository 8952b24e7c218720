//! How calls begin.

ghost use Rattle.std.specs.Prelude.{◌≡◌, ◌<◌, false};
ghost use Rattle.heap_geometry.specs.Need.{usable_words};
ghost use Rattle.heap_geometry.specs.declared.limits.TheConstants.{CLASSES, MAX_UNITS, SHELVES};
ghost use Rattle.heap_geometry.specs.Place.{frame_of, index_of};
ghost use Rattle.heap_geometry.specs.declared.need.Need.TheVariants.{Small};
ghost use Rattle.step_parts.specs.declared.superblock.point.BlockPoint.TheVariants.{LoadActive, LoadPrefix};
ghost use Rattle.errand_steps.specs.declared.continuation.Continuation.{Continuation};
ghost use Rattle.errand_steps.specs.declared.point.Point.{Point};
ghost use Rattle.errand_steps.specs.Errands.{is_spent, one_more};
ghost use Rattle.errand_steps.specs.Begins.{IsIdle, IsHeapBlock, alloc_begun, alloc_answer, free_point, free_begun, write_begun, read_begun, put_begun, take_begun, seat_of};

use crate::continuation::Continuation;
use crate::errand::Errand;
use crate::point::Point;
use crate::reply::Begun;
use heap_geometry::need::{Need, class_of};
use heap_geometry::place::{split_place, unit_of};
use step_parts::large::point::LargePoint;
use step_parts::large::run::UnitRun;
use step_parts::large::want::Want;
use step_parts::superblock::point::BlockPoint;
use word_table::seat::Seat;

impl Errand {
    /// Begins an allocation of so many usable words. A small one takes a turn; where the caller has
    /// none left, or no block has so many words, nothing begins.
    #[tactic(auto, unfolding(crate::specs::Begins::alloc_begun))]
    pub fn begin_alloc(&mut self, need: u32) -> Begun
        requires { IsIdle self.old }
        ensures errand { self.new ≡ alloc_begun self.old need }
        ensures answer { result ≡ alloc_answer self.old need }
    {
        match class_of(need) {
            Need::Small(_) if self.is_spent() => Begun::Spent,
            Need::Small(class) => {
                self.point = Point::Block {
                    at: BlockPoint::LoadActive {
                        seat: self.seat(class),
                    },
                    continuation: Continuation::Alloc { need },
                };
                self.turns += 1;
                Begun::Started
            }
            Need::Large(units) => {
                self.point = Point::Large {
                    at: LargePoint::LoadUnits {
                        want: Want::new(self.seat.geometry(), units),
                    },
                    continuation: Continuation::Alloc { need },
                };
                Begun::Started
            }
            Need::TooLarge => Begun::TooLarge,
        }
    }

    /// Where the free of a small block at this place begins.
    #[tactic(auto, using(crate::proofs::BeginLemmas::frame_is, crate::proofs::BeginLemmas::index_is))]
    #[inline(always)]
    pub fn free_from(&self, place: u32, class: u8) -> BlockPoint
        requires { IsHeapBlock self.now.geometry place (Small class) }
        ensures { result ≡ LoadPrefix (seat_of self.now class) (frame_of place) (index_of class place) }
    {
        let _ = self.caller();
        let (frame, index) = split_place(place, class);
        BlockPoint::LoadPrefix {
            seat: self.seat(class),
            frame: frame as u16,
            index: index as u16,
        }
    }

    /// Where a small allocation begins.
    #[inline(always)]
    pub fn alloc_from(&self, class: u8) -> BlockPoint
        requires { class < CLASSES }
        ensures { result ≡ LoadActive (seat_of self.now class) }
    {
        BlockPoint::LoadActive {
            seat: self.seat(class),
        }
    }

    /// Takes a turn, for a call that is made without the errand.
    #[inline(always)]
    pub fn take_turn(&mut self)
        requires { is_spent self.old ≡ false }
        ensures { self.new ≡ record self.old { turns = one_more self.old.turns } }
    {
        self.turns += 1;
    }

    /// Begins the free of the block at this place.
    #[tactic(auto, using(crate::proofs::BeginLemmas::frame_is, crate::proofs::BeginLemmas::index_is), unfolding(crate::specs::Begins::free_begun))]
    pub fn begin_free(&mut self, place: u32, need: Need)
        requires idle { IsIdle self.old }
        requires block { IsHeapBlock self.old.geometry place need }
        ensures { self.new ≡ free_begun self.old place need }
    {
        match need {
            Need::Small(class) => {
                let (frame, index) = split_place(place, class);
                self.point = Point::Block {
                    at: BlockPoint::LoadPrefix {
                        seat: self.seat(class),
                        frame: frame as u16,
                        index: index as u16,
                    },
                    continuation: Continuation::Free,
                };
            }
            Need::Large(units) => {
                let first = unit_of(self.seat.geometry().frames, place);
                self.point = last(LargePoint::LoadRunPrefix {
                    place,
                    run: UnitRun::new(first as u8, units),
                });
            }
            Need::TooLarge => {}
        }
    }

    /// Begins the write of a usable word of the block at this place; `i` counts them from 0.
    #[tactic(auto, unfolding(crate::specs::Begins::write_begun))]
    pub fn begin_write(&mut self, place: u32, need: Need, i: u32, v: u64)
        requires idle { IsIdle self.old }
        requires block { IsHeapBlock self.old.geometry place need }
        requires word { i < usable_words need }
        ensures { self.new ≡ write_begun self.old place i v }
    {
        self.point = last(LargePoint::StoreWord {
            place,
            index: i,
            value: v,
        });
    }

    /// Begins the read of a usable word of the block at this place; `i` counts them from 0.
    #[tactic(auto, unfolding(crate::specs::Begins::read_begun))]
    pub fn begin_read(&mut self, place: u32, need: Need, i: u32)
        requires idle { IsIdle self.old }
        requires block { IsHeapBlock self.old.geometry place need }
        requires word { i < usable_words need }
        ensures { self.new ≡ read_begun self.old place i }
    {
        self.point = last(LargePoint::LoadWord { place, index: i });
    }

    /// Begins to put the block at this place on a shelf.
    #[tactic(auto, unfolding(crate::specs::Begins::put_begun))]
    pub fn begin_put(&mut self, place: u32, need: Need, shelf: u8)
        requires idle { IsIdle self.old }
        requires block { IsHeapBlock self.old.geometry place need }
        requires shelf { shelf < SHELVES }
        ensures { self.new ≡ put_begun self.old place need shelf }
    {
        self.point = last(LargePoint::PutBlock { shelf, place, need });
    }

    /// Begins to take the block that lies on a shelf.
    #[tactic(auto, unfolding(crate::specs::Begins::take_begun))]
    pub fn begin_take(&mut self, shelf: u8)
        requires idle { IsIdle self.old }
        requires shelf { shelf < SHELVES }
        ensures { self.new ≡ take_begun self.old shelf }
    {
        self.point = last(LargePoint::LoadShelf { shelf });
    }

    /// The caller at work on blocks of this class.
    #[inline(always)]
    fn seat(&self, class: u8) -> Seat
        requires { class < CLASSES }
        ensures { result ≡ seat_of self.now class }
    {
        self.seat.of_class(class)
    }
}

/// A point of a call that ends with its part.
fn last(at: LargePoint) -> Point
    ensures { result ≡ Point.Large at Continuation.Nothing }
{
    Point::Large {
        at,
        continuation: Continuation::Nothing,
    }
}
