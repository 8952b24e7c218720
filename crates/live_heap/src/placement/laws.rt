//! Laws of the places: theorems about the definitions, on functions that do nothing.

ghost use Rattle.std.specs.Prelude.{ℕ, List, length, slice_index, slice_set, ◌≡◌, ◌≢◌, ◌<◌, ◌≤◌, ◌+◌, ◌⊎◌};
ghost use Rattle.heap_geometry.specs.declared.geometry.Geometry.{Geometry};
ghost use Rattle.heap_geometry.specs.Geometry.{IsChecked};
ghost use Rattle.live_heap.specs.placement.Places.{IsApart, place, placed_count, words_at};
ghost use Rattle.live_heap.specs.placement.Starts.{place_of};
ghost use Rattle.live_heap.specs.declared.placement.TheConstants.{APART};
ghost use Rattle.word_table.specs.Counts.{word_count};
ghost use Rattle.word_table.specs.Table.{Exists};
ghost use Rattle.word_table.specs.declared.name.WordName.{WordName};

/// A word that callers change again and again lies so many words from every other word, wherever the
/// lines of the memory begin.
pub fn words_lie_apart()
    ensures { (g : Geometry) (m n : WordName) → IsChecked g → Exists g m → Exists g n → IsApart m → n ≢ m
        → (place_of g m + APART ≤ place_of g n) ⊎ (place_of g n + APART ≤ place_of g m) }
{}

/// The words at the places are a table: each number has its word, and a change at a number's place is
/// one at the number.
pub fn places_hold_the_table()
    ensures within { (g : Geometry) (i : ℕ) → i < word_count g → place g i < placed_count g }
    ensures whole { (g : Geometry) (placed : List ℕ) → length (words_at g placed) ≡ word_count g }
    ensures word { (g : Geometry) (placed : List ℕ) (i : ℕ) → i < word_count g
        → slice_index (words_at g placed) i ≡ slice_index placed (place g i) }
    ensures change { (g : Geometry) (placed : List ℕ) (i new : ℕ) → length placed ≡ placed_count g → i < word_count g
        → words_at g (slice_set placed (place g i) new) ≡ slice_set (words_at g placed) i new }
{}
