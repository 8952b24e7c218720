//! Laws of the census: theorems about the definitions, on functions that do nothing.

ghost use Rattle.std.specs.Prelude.{ℕ, ◌≡◌, ◌<◌, ◌+◌, ◌↔◌, IsTrue, length};
ghost use Rattle.std.specs.Int.{bit_at};
ghost use Rattle.heap_geometry.specs.declared.limits.TheConstants.{CLASSES};
ghost use Rattle.word_table.specs.declared.name.WordName.TheVariants as name;
ghost use Rattle.word_table.specs.Counts.{descriptor_count};
ghost use Rattle.sound_state.specs.Lists.{Lists, IsListed};
ghost use Rattle.sound_state.specs.Sums.{sum_below};
ghost use Rattle.sound_state.specs.Superblocks.{info_for, is_bound};
ghost use Rattle.sound_state.specs.Ties.{IsCovered};
ghost use Rattle.live_heap.specs.Endings.{ClosedFields, IsResting};
ghost use Rattle.heap_census.specs.Census.{IsActiveOf, IsCensus, IsSeen, closed_state, superblocks_of};
ghost use Rattle.heap_census.specs.declared.census.Census.{Census};

/// In a closed heap a descriptor has a superblock exactly where its anchor says FULL or PARTIAL, or an
/// active word names it. Of such words there is one, of the superblock's class.
pub fn superblocks_are_seen()
    ensures seen { (c : ClosedFields) (l : Lists) (d : ℕ) → IsResting c → IsListed c.geometry (closed_state c).word l
        → d < descriptor_count c.geometry
        → IsTrue (is_bound c.geometry (closed_state c) l d) ↔ IsSeen c.geometry (closed_state c) d }
    ensures once { (c : ClosedFields) (d : ℕ) → IsResting c → (a b : IsActiveOf c.geometry (closed_state c) d)
        → (a.heap ≡ b.heap) × (a.class ≡ b.class) }
    ensures class { (c : ClosedFields) (d : ℕ) → IsResting c → (a : IsActiveOf c.geometry (closed_state c) d)
        → (info_for (closed_state c) d).class ≡ a.class }
{}

/// The frames on the stack of free frames and the superblocks of all classes are as many as the heap has
/// frames.
pub fn frames_add_up()
    ensures { (c : ClosedFields) (l : Lists) → IsResting c → IsListed c.geometry (closed_state c).word l
        → length l.frames + sum_below CLASSES (superblocks_of c.geometry (closed_state c) l) ≡ c.geometry.frames }
{}

/// A unit's bit is 0 exactly where no live large block has the unit.
pub fn clear_units_are_uncovered()
    ensures { (c : ClosedFields) (unit : ℕ) → IsResting c → unit < c.geometry.units
        → (bit_at ((closed_state c).word name.Units) unit ≡ 0) ↔ (¬ IsCovered c.geometry (closed_state c) unit) }
{}

/// A closed heap has one census.
pub fn closed_heaps_have_one_census()
    ensures { (c : ClosedFields) (a b : Census) → IsCensus c a → IsCensus c b → a ≡ b }
{}
