//! Which of the first few numbers are marked.

ghost use Rattle.std.specs.Prelude.{ℕ, ◌≡◌, ◌≢◌, ◌<◌, ◌≤◌, ◌+◌, ◌↔◌, IfSome, IfNone, IsTrue, slice_index_or, false, length};
ghost use Rattle.plain_pool.specs.Search.{IsMarked, IsGap};

/// Marks a number, where it is one of them.
pub fn mark_one(marks: &mut [bool], k: usize)
    ensures here { k < length marks.old → IsMarked marks.new k }
    ensures others { (j : ℕ) → j ≢ k
        → slice_index_or marks.new j false ≡ slice_index_or marks.old j false }
{
    if k < marks.len() {
        marks[k] = true;
    }
}

/// Marks so many numbers from one on.
pub fn mark(marks: &mut [bool], first: usize, count: usize)
    requires { first + count ≤ length marks.old }
    ensures inside { (k : ℕ) → first ≤ k → k < first + count → IsMarked marks.new k }
    ensures outside_below { (k : ℕ) → k < first
        → slice_index_or marks.new k false ≡ slice_index_or marks.old k false }
    ensures outside_above { (k : ℕ) → first + count ≤ k
        → slice_index_or marks.new k false ≡ slice_index_or marks.old k false }
{
    for k in first..first + count {
        marks[k] = true;
    }
}

/// The least number that isn't marked.
pub fn least_unmarked(marks: &[bool]) -> Option<usize>
    ensures found { IfSome result (λ k. (k < length marks.now) × ¬ IsMarked marks.now k) }
    ensures least { IfSome result (λ k. (j : ℕ) → j < k → IsMarked marks.now j) }
    ensures none { IfNone result ((j : ℕ) → j < length marks.now → IsMarked marks.now j) }
{
    for (k, marked) in marks.iter().enumerate() {
        if !*marked {
            return Some(k);
        }
    }
    None
}

/// Whether so many numbers from one on are all unmarked.
fn is_gap(marks: &[bool], first: usize, count: usize) -> bool
    ensures { IsTrue result ↔ IsGap marks.now count first }
{
    if count > marks.len() || first > marks.len() - count {
        return false;
    }
    for k in first..first + count {
        if marks[k] {
            return false;
        }
    }
    true
}

/// The least number with which so many unmarked ones begin.
pub fn least_gap(marks: &[bool], count: usize) -> Option<usize>
    requires { 0 < count }
    ensures found { IfSome result (IsGap marks.now count) }
    ensures least { IfSome result (λ first. (j : ℕ) → IsGap marks.now count j → first ≤ j) }
    ensures none { IfNone result ((j : ℕ) → ¬ IsGap marks.now count j) }
{
    for first in 0..marks.len() {
        if is_gap(marks, first, count) {
            return Some(first);
        }
    }
    None
}
