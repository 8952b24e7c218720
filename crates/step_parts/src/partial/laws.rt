//! Laws of partial superblocks: theorems about the definitions, on functions that do nothing.

ghost use Rattle.std.specs.Prelude.{ℕ, ◌≡◌, ◌<◌, ◌≤◌, ◌+◌, ◌^◌};
ghost use Rattle.heap_geometry.specs.declared.geometry.Geometry.{Geometry};
ghost use Rattle.heap_geometry.specs.Geometry.{IsChecked};
ghost use Rattle.packed_words.specs.Anchor.{AnchorFields};
ghost use Rattle.word_table.specs.declared.action.Found.{Found};
ghost use Rattle.word_table.specs.declared.limits.TheConstants.{MOST_CREDITS};
ghost use Rattle.word_table.specs.Actions.{name_of};
ghost use Rattle.word_table.specs.Onwards.{IsOnward, told_onward};
ghost use Rattle.word_table.specs.Table.{Exists};
ghost use Rattle.step_parts.specs.partial.Points.{FitsPartial, FitsPartialExit, plan_partial_of, seat_of_partial, seat_of_partial_exit, settle_partial_of};
ghost use Rattle.step_parts.specs.partial.Grants.{grant_more, granted};
ghost use Rattle.step_parts.specs.declared.partial.point.PartialPoint.{PartialPoint};

/// A grant takes the blocks that it reserves off the count, and an active word can offer those
/// beside the one that is popped.
pub fn grants_add_up()
    ensures count { (a : AnchorFields) → 0 < a.count → (granted a).count + (grant_more a.count + 1) ≡ a.count }
    ensures within { (count : ℕ) → grant_more count ≤ MOST_CREDITS }
{}

/// A point whose memory exists in a heap acts on a word that exists there, and leads to such a
/// point, or such an exit, of the same seat, whatever it finds.
pub fn points_fit()
    ensures names { (g : Geometry) (caller : ℕ) (p : PartialPoint) → IsChecked g → caller < g.callers
        → FitsPartial g caller p → Exists g (name_of (plan_partial_of p)) }
    ensures keeps { (g : Geometry) (caller : ℕ) (p : PartialPoint) (x : Found) → IsChecked g → x.value < 2 ^ 64
        → FitsPartial g caller p
        → IsOnward (FitsPartial g caller) (FitsPartialExit g caller) (settle_partial_of p x) }
    ensures seat { (p : PartialPoint) (x : Found)
        → told_onward seat_of_partial seat_of_partial_exit (settle_partial_of p x) ≡ seat_of_partial p }
{}
