//! Laws of the table: theorems about the definitions, on functions that do nothing.

ghost use Rattle.std.specs.Prelude.{ℕ, List, length, slice_index, slice_set, ◌≡◌, ◌≢◌, ◌<◌, ◌≤◌, ◌^◌, ◌⊎◌};
ghost use Rattle.heap_geometry.specs.declared.geometry.Geometry.{Geometry};
ghost use Rattle.heap_geometry.specs.Geometry.{IsChecked};
ghost use Rattle.heap_geometry.specs.Need.{block_count_of};
ghost use Rattle.heap_geometry.specs.Place.{block_place};
ghost use Rattle.packed_words.specs.declared.widths.TheConstants.{DESC_BITS};
ghost use Rattle.word_table.specs.Actions.{after_action, IsLost};
ghost use Rattle.word_table.specs.Counts.{descriptor_count, word_count};
ghost use Rattle.word_table.specs.Seats.{SeatFields, heap_of};
ghost use Rattle.word_table.specs.Table.{Exists, word_index, word_name};
ghost use Rattle.word_table.specs.Words.{word_in, Writes};
ghost use Rattle.word_table.specs.declared.action.Action.{Action};
ghost use Rattle.word_table.specs.declared.limits.TheConstants.{MAX_DESCRIPTORS, MAX_WORDS};
ghost use Rattle.word_table.specs.declared.name.WordName.{WordName};
ghost use Rattle.word_table.specs.declared.name.WordName.TheVariants.{Arena};

/// No heap has more descriptors or words than the largest one, and each descriptor's index plus 1
/// fits the bits that a packed word has for it.
pub fn counts_are_limited()
    ensures descriptors { (g : Geometry) → IsChecked g → descriptor_count g ≤ MAX_DESCRIPTORS }
    ensures words { (g : Geometry) → IsChecked g → word_count g ≤ MAX_WORDS }
    ensures fits { MAX_DESCRIPTORS < 2 ^ DESC_BITS }
{}

/// The names that exist and the places of the table determine each other.
pub fn places_are_exact()
    ensures within { (g : Geometry) (name : WordName) → Exists g name → word_index g name < word_count g }
    ensures back { (g : Geometry) (name : WordName) → Exists g name → word_name g (word_index g name) ≡ name }
    ensures exists { (g : Geometry) (index : ℕ) → index < word_count g → Exists g (word_name g index) }
    ensures forth { (g : Geometry) (index : ℕ) → index < word_count g → word_index g (word_name g index) ≡ index }
    ensures apart { (g : Geometry) (m n : WordName) → Exists g m → Exists g n → m ≢ n
        → word_index g m ≢ word_index g n }
{}

/// A frame's blocks lie in the arena, and the processor heap of a caller is one of the heap's.
pub fn seats_have_their_words()
    ensures block { (g : Geometry) (frame class index : ℕ) → frame < g.frames → index < block_count_of class
        → Exists g (Arena (block_place frame class index)) }
    ensures heap { (s : SeatFields) → 0 < s.geometry.heaps → heap_of s < s.geometry.heaps }
{}

/// Two names are one or are not.
pub fn names_are_told_apart()
    ensures { (m n : WordName) → (m ≡ n) ⊎ (m ≢ n) }
{}

/// A lost exchange leaves its word as it was.
pub fn lost_exchanges_change_nothing()
    ensures { (action : Action) (word : ℕ) → IsLost action word → after_action action word ≡ word }
{}

/// A table as a function of the names: a write at the place of a name changes the word of that
/// name, and of no other.
pub fn words_are_written_by_name()
    ensures there { (g : Geometry) (words : List ℕ) (name : WordName) → Exists g name
        → word_in g words name ≡ slice_index words (word_index g name) }
    ensures nowhere { (g : Geometry) (words : List ℕ) (name : WordName) → ¬ Exists g name
        → word_in g words name ≡ 0 }
    ensures writes { (g : Geometry) (words : List ℕ) (name : WordName) (new : ℕ)
        → length words ≡ word_count g → Exists g name
        → Writes (word_in g words) name new (word_in g (slice_set words (word_index g name) new)) }
    ensures one_table { (g : Geometry) (a b : List ℕ) → length a ≡ word_count g → length b ≡ word_count g
        → ((name : WordName) → Exists g name → word_in g a name ≡ word_in g b name) → a ≡ b }
{}
