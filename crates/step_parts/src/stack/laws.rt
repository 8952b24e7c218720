//! Laws of stacks: theorems about the definitions, on functions that do nothing.

ghost use Rattle.std.specs.Prelude.{ℕ, List, [], ◌≡◌, ◌≢◌, ◌↔◌, ◌<◌, ◌≤◌, ◌+◌, ◌-◌, ◌^◌, ◌∷◌};
ghost use Rattle.heap_geometry.specs.declared.geometry.Geometry.{Geometry};
ghost use Rattle.heap_geometry.specs.Geometry.{IsChecked};
ghost use Rattle.packed_words.specs.declared.widths.TheConstants.{TOP_BITS};
ghost use Rattle.packed_words.specs.Head.{HeadFields};
ghost use Rattle.word_table.specs.declared.action.Found.{Found};
ghost use Rattle.word_table.specs.declared.name.WordName.{WordName};
ghost use Rattle.word_table.specs.Actions.{name_of};
ghost use Rattle.word_table.specs.Onwards.{IsOnward, told_onward};
ghost use Rattle.word_table.specs.Table.{Exists};
ghost use Rattle.word_table.specs.Words.{Writes};
ghost use Rattle.word_table.specs.Occurs.{occurs};
ghost use Rattle.step_parts.specs.stack.Points.{FitsStack, FitsStackExit, plan_stack_of, seat_of_stack, seat_of_stack_exit, settle_stack_of};
ghost use Rattle.step_parts.specs.stack.Piles.{next_name, popped_head, pushed_head};
ghost use Rattle.step_parts.specs.stack.Stacks.{Stacked, next_in};
ghost use Rattle.step_parts.specs.declared.stack.point.Pile.{Pile};
ghost use Rattle.step_parts.specs.declared.stack.point.StackPoint.{StackPoint};

/// A stack is one list, which is empty exactly where the top is 0, and has each index once.
pub fn stacks_are_lists()
    ensures one { (next : ℕ → ℕ) (top : ℕ) (xs ys : List ℕ) → Stacked next top xs → Stacked next top ys → xs ≡ ys }
    ensures empty { (next : ℕ → ℕ) (top : ℕ) (xs : List ℕ) → Stacked next top xs → (top ≡ 0) ↔ (xs ≡ []) }
    ensures once { (next : ℕ → ℕ) (top i : ℕ) (xs : List ℕ) → Stacked next top xs → occurs i xs ≤ 1 }
{}

/// A pop takes the first index off, and leaves the rest.
pub fn first_index_is_popped()
    ensures index { (next : ℕ → ℕ) (h : HeadFields) (x : ℕ) (xs : List ℕ) → Stacked next h.top (x ∷ xs)
        → h.top - 1 ≡ x }
    ensures rest { (next : ℕ → ℕ) (h : HeadFields) (x : ℕ) (xs : List ℕ) → Stacked next h.top (x ∷ xs)
        → Stacked next (popped_head h (next x)).top xs }
{}

/// A push of an index that is not on the stack, in whose next word the top was stored, puts it in
/// front.
pub fn index_is_put_in_front()
    ensures { (words changed : WordName → ℕ) (p : Pile) (h : HeadFields) (i : ℕ) (xs : List ℕ)
        → i + 1 < 2 ^ TOP_BITS → Writes words (next_name p i) h.top changed → occurs i xs ≡ 0
        → Stacked (next_in words p) h.top xs
        → Stacked (next_in changed p) (pushed_head h i).top (i ∷ xs) }
{}

/// A change of the next word of an index that is not on a stack leaves the stack, and so does a
/// change of any word that is no next word of an index on it.
pub fn other_words_leave_a_stack()
    ensures next { (words changed : WordName → ℕ) (new : ℕ) (p : Pile) (top i : ℕ) (xs : List ℕ)
        → Writes words (next_name p i) new changed → occurs i xs ≡ 0
        → Stacked (next_in words p) top xs → Stacked (next_in changed p) top xs }
    ensures other { (words changed : WordName → ℕ) (name : WordName) (new : ℕ) (p : Pile) (top : ℕ) (xs : List ℕ)
        → Writes words name new changed → ((j : ℕ) → 0 < occurs j xs → next_name p j ≢ name)
        → Stacked (next_in words p) top xs → Stacked (next_in changed p) top xs }
{}

/// A point whose memory exists in a heap acts on a word that exists there, and leads to such a
/// point or exit of the same seat, whatever it finds.
pub fn points_fit()
    ensures names { (g : Geometry) (caller : ℕ) (p : StackPoint) → IsChecked g → caller < g.callers → FitsStack g caller p
        → Exists g (name_of (plan_stack_of p)) }
    ensures keeps { (g : Geometry) (caller : ℕ) (p : StackPoint) (x : Found) → IsChecked g → x.value < 2 ^ 64
        → FitsStack g caller p → IsOnward (FitsStack g caller) (FitsStackExit g caller) (settle_stack_of p x) }
    ensures seat { (p : StackPoint) (x : Found) → told_onward seat_of_stack seat_of_stack_exit (settle_stack_of p x) ≡ seat_of_stack p }
{}
