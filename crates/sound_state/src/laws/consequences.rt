//! What a sound state gives, whatever led to it.

ghost use Rattle.std.specs.Prelude.{ℕ, ◌≡◌, ◌≢◌, ◌<◌, ◌≤◌, ◌+◌, ◌*◌, ◌^◌, None, IsTrue, count_by};
ghost use Rattle.heap_geometry.specs.declared.geometry.Geometry.{Geometry};
ghost use Rattle.heap_geometry.specs.declared.limits.TheConstants.{CLASSES};
ghost use Rattle.heap_geometry.specs.declared.need.Need.TheVariants.{Small};
ghost use Rattle.heap_geometry.specs.Place.{IsApart, block_place};
ghost use Rattle.packed_words.specs.declared.widths.TheConstants.{TAG_BITS};
ghost use Rattle.packed_words.specs.Head.{head_of};
ghost use Rattle.word_table.specs.declared.name.WordName.TheVariants as name;
ghost use Rattle.word_table.specs.Counts.{descriptor_count};
ghost use Rattle.word_table.specs.Seats.{SeatFields};
ghost use Rattle.word_table.specs.Occurs.{occurs};
ghost use Rattle.pool_model.specs.Pool.{Block, block_at, span_of, pool_of};
ghost use Rattle.step_parts.specs.declared.hazard.point.DescPoint.TheVariants.{LoadDescHead};
ghost use Rattle.errand_steps.specs.declared.continuation.Continuation.{Continuation};
ghost use Rattle.errand_steps.specs.declared.point.Point.TheVariants as point;
ghost use Rattle.errand_steps.specs.Steps.{State};
ghost use Rattle.sound_state.specs.Consequences.{IsTaken, IsBound, AddsUp};
ghost use Rattle.sound_state.specs.Lists.{Lists};
ghost use Rattle.sound_state.specs.Sound.{IsSoundWith, IsSoundWithoutCounts};
ghost use Rattle.sound_state.specs.Stock.{waits_in};
ghost use Rattle.sound_state.specs.Sums.{callers_sum};
ghost use Rattle.sound_state.specs.Superblocks.{IsChained, anchor_for, info_for, is_bound, superblock_of, free_chain};
ghost use Rattle.sound_state.specs.Ties.{IsLive};
ghost use Rattle.sound_state.specs.Turns.{is_small_alloc, is_small_free, turn_unframed, turns_of, cleared_of};

/// Every tag has room for one more pop: the sum is not cut. An anchor's tag is at most the small blocks that
/// were given; the tag of the frames at most the turns that all callers took, less those under way that
/// have popped no frame yet; and the tag of a class's list at most these turns, and three times the small
/// blocks that were freed. So the bounds are those of the turns of all callers, which are fewer than an
/// anchor's tags, and of four times as many.
pub fn tags_stay_below()
    ensures anchors { (g : Geometry) (s : State) → IsSoundWithoutCounts g s
        → (d : ℕ) → d < descriptor_count g → (anchor_for s d).tag + 1 < 2 ^ TAG_BITS }
    ensures frames { (g : Geometry) (s : State) → IsSoundWithoutCounts g s
        → (head_of (s.word name.FrameHead)).tag + 1 < 2 ^ TAG_BITS }
    ensures lists { (g : Geometry) (s : State) → IsSoundWithoutCounts g s
        → (class : ℕ) → class < CLASSES
        → (head_of (s.word (name.ListHead class))).tag + 1 < 4 * 2 ^ TAG_BITS }
    ensures pops { (g : Geometry) (s : State) → IsSoundWithoutCounts g s
        → (d : ℕ) → d < descriptor_count g → (anchor_for s d).tag ≤ count_by is_small_alloc s.history }
    ensures turns { (g : Geometry) (s : State) → IsSoundWithoutCounts g s → callers_sum g turns_of s.errand + 1 < 2 ^ TAG_BITS }
    ensures framings { (g : Geometry) (s : State) → IsSoundWithoutCounts g s
        → (head_of (s.word name.FrameHead)).tag + callers_sum g turn_unframed s.errand ≤ callers_sum g turns_of s.errand }
    ensures listings { (g : Geometry) (s : State) → IsSoundWithoutCounts g s
        → (class : ℕ) → class < CLASSES
        → (head_of (s.word (name.ListHead class))).tag
        ≤ callers_sum g turns_of s.errand + 3 * count_by (is_small_free g) s.history }
{}

/// All callers together took at most as many empty superblocks for partial ones as they began turns.
/// So no count of them comes near its end.
pub fn cleared_counts_stay_below()
    ensures together { (g : Geometry) (s : State) → IsSoundWithoutCounts g s
        → callers_sum g cleared_of s.errand ≤ callers_sum g turns_of s.errand }
    ensures each { (g : Geometry) (s : State) (caller : ℕ) → IsSoundWithoutCounts g s → caller < g.callers
        → (s.errand caller).cleared ≤ g.callers * g.turn_limit }
    ensures below { (g : Geometry) (s : State) (caller : ℕ) → IsSoundWithoutCounts g s → caller < g.callers
        → (s.errand caller).cleared < 2 ^ TAG_BITS }
{}

/// Two live blocks have no word in common. A live small block is a block of a superblock and none of
/// its free ones, and a free block isn't live.
pub fn live_blocks_never_overlap()
    ensures apart { (g : Geometry) (s : State) → IsSoundWithoutCounts g s → (p q : ℕ) (a b : Block)
        → IsLive s p a → IsLive s q b → p ≢ q → IsApart (span_of a) (span_of b) }
    ensures taken { (g : Geometry) (s : State) → IsSoundWithoutCounts g s → (l : Lists) → IsSoundWith g s l
        → (place class : ℕ) (b : Block) → IsLive s place b → b.need ≡ Small class → IsTaken g s l place }
    ensures free { (g : Geometry) (s : State) → IsSoundWithoutCounts g s → (l : Lists) → IsSoundWith g s l
        → (d i : ℕ) → d < descriptor_count g → IsTrue (is_bound g s l d)
        → 0 < occurs i (free_chain (superblock_of g s d))
        → block_at (block_place (info_for s d).frame (info_for s d).class i) (pool_of s.history) ≡ None }
{}

/// The blocks of a superblock add up: those that its anchor counts, those that are reserved, the live ones,
/// and block 0 where the superblock is new and waits. For each of them is free, live or held back, once.
pub fn blocks_add_up()
    ensures all { (g : Geometry) (s : State) (d : ℕ) → IsSoundWithoutCounts g s → IsBound g s d → AddsUp (superblock_of g s d) }
    ensures each { (g : Geometry) (s : State) (d : ℕ) → IsSoundWithoutCounts g s → IsBound g s d → IsChained (superblock_of g s d) }
{}

/// While a caller looks for a descriptor, one is available: the word that it loads names one of the
/// heap's.
pub fn a_descriptor_is_always_available()
    ensures waiting { (g : Geometry) (s : State) → IsSoundWithoutCounts g s → (caller class : ℕ)
        → caller < g.callers → class < CLASSES → waits_in class (s.errand caller).point ≡ 1
        → (d : ℕ) × (d < descriptor_count g) × (s.word name.DescHead ≡ d + 1) }
    ensures looking { (g : Geometry) (s : State) → IsSoundWithoutCounts g s
        → (caller : ℕ) (seat : SeatFields) (o : Continuation) → caller < g.callers
        → (s.errand caller).point ≡ point.Desc (LoadDescHead seat) o
        → (d : ℕ) × (d < descriptor_count g) × (s.word name.DescHead ≡ d + 1) }
{}
