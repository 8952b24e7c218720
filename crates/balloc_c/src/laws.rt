//! Laws of numbers and codes: theorems about the definitions, on functions that do nothing.

ghost use Rattle.std.specs.Prelude.{ℕ, ◌≡◌, ◌≢◌, ◌<◌, ◌%◌, ◌^◌, ◌==◌, List, [], ◌++◌, None, count_by, pos};
ghost use Rattle.balloc_c.specs.declared.kept.Kept.{Kept};
ghost use Rattle.balloc_c.specs.declared.refusal.Refusal.{Refusal};
ghost use Rattle.balloc_c.specs.declared.table.Table.{Table};
ghost use Rattle.balloc_c.specs.Codes.{code_of};
ghost use Rattle.balloc_c.specs.Numbers.{GaveAway, NamesOneMore, named};
ghost use Rattle.balloc_c.specs.Packed.{HasOneMoreAtMost};

/// A number that named a block names none once its slot has given that away, and until the slot has given
/// away 2^32 blocks since.
pub fn old_numbers_name_nothing()
    ensures { (before after : Table) (slots : List ℕ) (number : ℕ) → named before number ≢ None → GaveAway before slots after
        → 0 < count_by (λ slot. slot == number % 2 ^ 32) slots → count_by (λ slot. slot == number % 2 ^ 32) slots < 2 ^ 32
        → named after number ≡ None }
{}

/// The first number of a pass that has no slot yet is 0.
pub fn numbers_begin_at_zero()
    ensures { (before after : Table) (number : ℕ) (block : Kept) → before.slots.items ≡ [] → HasOneMoreAtMost before after
        → NamesOneMore before number block after → number < 2 ^ 64 → number ≡ 0 }
{}

/// What slots gave away in two runs of calls, one behind the other, is what they gave away in both.
pub fn slots_give_away_in_turn()
    ensures { (first middle last : Table) (slots more : List ℕ) → GaveAway first slots middle → GaveAway middle more last
        → GaveAway first (slots ++ more) last }
{}

/// Each cause has a code of its own, which is not that of a call that was made.
pub fn codes_tell_causes()
    ensures apart { (one other : Refusal) → code_of one ≡ code_of other → one ≡ other }
    ensures made { (cause : Refusal) → code_of cause ≢ pos 0 }
    ensures freed { (cause : Refusal) → code_of cause ≢ pos 1 }
{}
