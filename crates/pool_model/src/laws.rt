//! Laws of pools and histories: theorems about the definitions, on functions that do nothing.

ghost use Rattle.std.specs.Prelude.{ℕ, ◌≡◌, ◌≢◌, ◌≤◌, ◌+◌, ◌<◌, ◌↔◌, List, [], ◌∷◌, ◌++◌, length, Some, true, false, All, AllPairs, count_by};
ghost use Rattle.heap_geometry.specs.declared.geometry.Geometry.{Geometry};
ghost use Rattle.heap_geometry.specs.Need.{need_of, usable_words};
ghost use Rattle.heap_geometry.specs.Place.{IsApart, unit_place};
ghost use Rattle.pool_model.specs.declared.event.Event.{Event};
ghost use Rattle.pool_model.specs.declared.event.Event.TheVariants.{Alloc, Free};
ghost use Rattle.pool_model.specs.declared.owner.Owner.{Owner};
ghost use Rattle.pool_model.specs.declared.owner.Owner.TheVariants.{Caller, Shelf};
ghost use Rattle.pool_model.specs.Histories.{own};
ghost use Rattle.pool_model.specs.Pool.{Block, block_at, EachBlock, span_of, pool_of, pool_after, live_words};
ghost use Rattle.pool_model.specs.Legal.{IsLegal, IsLegalEvent, IsLegalWithoutCounts, IsLegalEventWithoutCounts};
ghost use Rattle.pool_model.specs.Owned.{owned_at};
ghost use Rattle.pool_model.specs.Parcels.{lying_on, puts_on, takes_off};
ghost use Rattle.pool_model.specs.WellFormed.{IsWellFormed, IsSeparate};
ghost use Rattle.pool_model.specs.Counts.{is_alloc, is_free};

/// In the pool of a legal history no two live blocks have a word in common.
pub fn live_blocks_lie_apart()
    ensures { (g : Geometry) (history : List Event) → IsLegalWithoutCounts g history
        → AllPairs (λ a b. IsApart (span_of a) (span_of b)) (pool_of history) }
{}

/// A place is live at most once: a look-up finds each of the live blocks.
pub fn a_place_is_live_once()
    ensures { (g : Geometry) (history : List Event) → IsLegalWithoutCounts g history
        → All (λ block. block_at block.place (pool_of history) ≡ Some block) (pool_of history) }
{}

/// Every live block is one of the heap's: its need, its place, its owner and its words.
pub fn live_blocks_are_well_formed()
    ensures { (g : Geometry) (history : List Event) → IsLegalWithoutCounts g history
        → EachBlock (IsWellFormed g) (pool_of history) }
{}

/// Blocks at two places have no word in common, don't lie on one shelf, and are of one class where
/// they lie in one frame.
pub fn live_blocks_are_separate()
    ensures { (g : Geometry) (history : List Event) → IsLegalWithoutCounts g history
        → (p q : ℕ) (a b : Block) → block_at p (pool_of history) ≡ Some a
        → block_at q (pool_of history) ≡ Some b → p ≢ q → IsSeparate a b }
{}

/// One event more changes the pool as that event does, and is legal where it is legal there.
pub fn histories_grow_by_events()
    ensures pool { (history : List Event) (event : Event)
        → pool_of (history ++ event ∷ []) ≡ pool_after (pool_of history) event }
    ensures legal { (g : Geometry) (history : List Event) (event : Event)
        → IsLegal g (history ++ event ∷ []) ↔ (IsLegal g history × IsLegalEvent g history event) }
    ensures without_counts { (g : Geometry) (history : List Event) (event : Event)
        → IsLegalWithoutCounts g (history ++ event ∷ [])
        ↔ (IsLegalWithoutCounts g history × IsLegalEventWithoutCounts g history event) }
    ensures cut { (g : Geometry) (history rest : List Event)
        → IsLegal g (history ++ rest) → IsLegal g history }
    ensures cut_without_counts { (g : Geometry) (history rest : List Event)
        → IsLegalWithoutCounts g (history ++ rest) → IsLegalWithoutCounts g history }
    ensures weaker { (g : Geometry) (history : List Event)
        → IsLegal g history → IsLegalWithoutCounts g history }
{}

/// Where a caller has no event, all that it owns stays as it is, contents and all, and nothing comes to it.
pub fn others_leave_a_callers_blocks()
    ensures all { (g : Geometry) (history rest : List Event) (caller place : ℕ)
        → IsLegalWithoutCounts g (history ++ rest) → own caller rest ≡ []
        → owned_at caller place (pool_of (history ++ rest)) ≡ owned_at caller place (pool_of history) }
    ensures one { (g : Geometry) (history rest : List Event) (caller place : ℕ) (block : Block)
        → IsLegalWithoutCounts g (history ++ rest) → own caller rest ≡ []
        → block_at place (pool_of history) ≡ Some block → block.owner ≡ Caller caller
        → block_at place (pool_of (history ++ rest)) ≡ Some block }
{}

/// Blocks leave a shelf in the order in which they were put there, each with what it contained then; what
/// was put there and not taken lies there still, and that is one block at most.
pub fn shelves_keep_order()
    ensures order { (g : Geometry) (history : List Event) (shelf : ℕ) → IsLegalWithoutCounts g history
        → puts_on shelf history ≡ takes_off shelf history ++ lying_on shelf (pool_of history) }
    ensures one { (g : Geometry) (history : List Event) (shelf : ℕ) → IsLegalWithoutCounts g history
        → length (lying_on shelf (pool_of history)) ≤ 1 }
{}

/// How many blocks and words are live follows from the events.
pub fn live_blocks_are_counted()
    ensures blocks { (g : Geometry) (history : List Event) → IsLegalWithoutCounts g history
        → length (pool_of history) + count_by is_free history ≡ count_by is_alloc history }
    ensures words_given { (history : List Event) (caller need place : ℕ)
        → live_words (pool_of (history ++ Alloc caller need place ∷ []))
        ≡ live_words (pool_of history) + usable_words (need_of need) }
    ensures words_freed { (history : List Event) (caller place : ℕ) (block : Block)
        → block_at place (pool_of history) ≡ Some block
        → live_words (pool_of (history ++ Free caller place ∷ [])) + usable_words block.need
        ≡ live_words (pool_of history) }
    ensures words_kept { (history : List Event) (event : Event)
        → is_alloc event ≡ false → is_free event ≡ false
        → live_words (pool_of (history ++ event ∷ [])) ≡ live_words (pool_of history) }
{}

/// The live blocks, each with its prefix word, fit into the arena.
pub fn live_blocks_fit_the_arena()
    ensures { (g : Geometry) (history : List Event) → IsLegalWithoutCounts g history
        → length (pool_of history) + live_words (pool_of history) ≤ unit_place g.frames g.units }
{}
