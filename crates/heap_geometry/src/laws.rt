//! Laws of the places: theorems about the definitions, on functions that do nothing.

ghost use Rattle.std.specs.Prelude.{ℕ, ◌≡◌, ◌≢◌, ◌<◌, ◌≤◌, ◌+◌};
ghost use Rattle.heap_geometry.specs.Need.{block_count_of, usable_words, IsNeed, IsNeedOf, need_of};
ghost use Rattle.heap_geometry.specs.Place.{block_span, run_span, IsApart};
ghost use Rattle.heap_geometry.specs.declared.limits.TheConstants.{CLASSES};
ghost use Rattle.heap_geometry.specs.declared.need.Need.{Need};

/// An allocation is served by blocks of one kind alone, and blocks of each kind serve one, that of all
/// their usable words.
pub fn one_need_serves()
    ensures one { (need : ℕ) (n : Need) → IsNeedOf need n → n ≡ need_of need }
    ensures each { (n : Need) → IsNeed n → 0 < usable_words n → n ≡ need_of (usable_words n) }
{}

/// Two blocks of a frame that are not one block have no word in common, and neither have blocks of
/// two frames, nor a frame's block and a run of units, nor two runs of which one ends before the other.
pub fn blocks_lie_apart()
    ensures same_frame { (frame class i j : ℕ) → class < CLASSES → i ≢ j
        → IsApart (block_span frame class i) (block_span frame class j) }
    ensures other_frame { (f g class other i j : ℕ) → class < CLASSES → other < CLASSES
        → i < block_count_of class → j < block_count_of other → f ≢ g
        → IsApart (block_span f class i) (block_span g other j) }
    ensures units { (frames frame class i unit units : ℕ) → class < CLASSES
        → frame < frames → i < block_count_of class
        → IsApart (block_span frame class i) (run_span frames unit units) }
    ensures runs { (frames a m b n : ℕ) → a + m ≤ b
        → IsApart (run_span frames a m) (run_span frames b n) }
{}
