//! Laws of superblocks: theorems about the definitions, on functions that do nothing.

ghost use Rattle.std.specs.Prelude.{ℕ, ◌≡◌, ◌≢◌, ◌<◌, ◌+◌, ◌-◌, ◌^◌, ◌∷◌, length};
ghost use Rattle.heap_geometry.specs.declared.geometry.Geometry.{Geometry};
ghost use Rattle.heap_geometry.specs.Geometry.{IsChecked};
ghost use Rattle.packed_words.specs.Prefix.{link_of};
ghost use Rattle.word_table.specs.declared.action.Found.{Found};
ghost use Rattle.word_table.specs.declared.name.WordName.{WordName};
ghost use Rattle.word_table.specs.Actions.{name_of};
ghost use Rattle.word_table.specs.Onwards.{IsOnward, told_onward};
ghost use Rattle.word_table.specs.Table.{Exists};
ghost use Rattle.word_table.specs.Words.{Writes};
ghost use Rattle.word_table.specs.Occurs.{occurs};
ghost use Rattle.step_parts.specs.superblock.Chains.{chain_of, chain_in, prefix_name};
ghost use Rattle.step_parts.specs.superblock.Points.{FitsBlock, FitsBlockExit, plan_block_of, seat_of_block, seat_of_block_exit, settle_block_of};
ghost use Rattle.step_parts.specs.declared.superblock.point.BlockPoint.{BlockPoint};

/// Taking the first index off a chain of `k` leaves the rest, a chain of `k - 1`.
pub fn first_index_is_taken_off()
    ensures length { (next : ℕ → ℕ) (k i : ℕ) → length (chain_of next k i) ≡ k }
    ensures rest { (next : ℕ → ℕ) (k i : ℕ) → 0 < k → chain_of next k i ≡ i ∷ chain_of next (k - 1) (next i) }
{}

/// A link to the first index of a chain of `k`, in the prefix word of a block that is not on it,
/// puts that block in front, which gives a chain of `k + 1`.
pub fn index_is_put_in_front()
    ensures { (words changed : WordName → ℕ) (new frame class k i : ℕ)
        → Writes words (prefix_name frame class i) new changed
        → occurs i (chain_in words frame class k (link_of new)) ≡ 0
        → chain_in changed frame class (k + 1) i ≡ i ∷ chain_in words frame class k (link_of new) }
{}

/// A change of a word that is not a prefix word of the chain leaves the chain as it is.
pub fn other_words_leave_a_chain()
    ensures { (words changed : WordName → ℕ) (name : WordName) (new frame class k i : ℕ)
        → Writes words name new changed
        → ((j : ℕ) → 0 < occurs j (chain_in words frame class k i) → prefix_name frame class j ≢ name)
        → chain_in changed frame class k i ≡ chain_in words frame class k i }
{}

/// A point whose memory exists in a heap acts on a word that exists there, and leads to such a
/// point or exit of the same seat, whatever it finds.
pub fn points_fit()
    ensures names { (g : Geometry) (caller : ℕ) (p : BlockPoint) → IsChecked g → caller < g.callers → FitsBlock g caller p
        → Exists g (name_of (plan_block_of p)) }
    ensures keeps { (g : Geometry) (caller : ℕ) (p : BlockPoint) (x : Found) → IsChecked g → x.value < 2 ^ 64
        → FitsBlock g caller p → IsOnward (FitsBlock g caller) (FitsBlockExit g caller) (settle_block_of p x) }
    ensures seat { (p : BlockPoint) (x : Found) → told_onward seat_of_block seat_of_block_exit (settle_block_of p x) ≡ seat_of_block p }
{}
