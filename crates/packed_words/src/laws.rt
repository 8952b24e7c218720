//! Laws of the packed words: theorems about the definitions, on functions that do nothing.

ghost use Rattle.std.specs.Prelude.{ℕ, List, sum, ◌≡◌, ◌<◌, ◌^◌, Some};
ghost use Rattle.packed_words.specs.Fields.{Fit, joined, parted, IsExact};
ghost use Rattle.packed_words.specs.Anchor.{IsAnchor, anchor_word, anchor_of};
ghost use Rattle.packed_words.specs.Active.{IsActiveWord, active_word, active_of};
ghost use Rattle.packed_words.specs.Head.{IsHead, head_word, head_of};
ghost use Rattle.packed_words.specs.Prefix.{IsPrefix, prefix_word, prefix_of};
ghost use Rattle.packed_words.specs.Info.{IsInfo, info_word, info_of};
ghost use Rattle.packed_words.specs.Shelf.{IsShelfWord, shelf_word, shelf_of};

/// Numbers that fit the fields of a word and the word that they make determine each other.
pub fn fields_are_exact()
    ensures fits { (widths numbers : List ℕ) → Fit widths numbers → joined widths numbers < 2 ^ sum widths }
    ensures back { (widths numbers : List ℕ) → Fit widths numbers → parted widths (joined widths numbers) ≡ numbers }
    ensures parts_fit { (widths : List ℕ) (word : ℕ) → Fit widths (parted widths word) }
    ensures forth { (widths : List ℕ) (word : ℕ) → word < 2 ^ sum widths → joined widths (parted widths word) ≡ word }
{}

/// Each kind of packed word is exact, both ways.
pub fn words_are_exact()
    ensures anchor { IsExact IsAnchor anchor_word (λ word. Some (anchor_of word)) }
    ensures active { IsExact IsActiveWord active_word active_of }
    ensures head { IsExact IsHead head_word (λ word. Some (head_of word)) }
    ensures prefix { IsExact IsPrefix prefix_word prefix_of }
    ensures info { IsExact IsInfo info_word info_of }
    ensures shelf { IsExact IsShelfWord shelf_word shelf_of }
{}
