//! Laws of hazard words and retired descriptors: theorems about the definitions, on functions that
//! do nothing.

ghost use Rattle.std.specs.Prelude.{ℕ, List, ◌≡◌, ◌≢◌, ◌<◌, ◌+◌, ◌++◌, ◌∷◌, ◌^◌, ◌↔◌, Some, None, length, All, AllPairs, Contains, IsSome, count_by, map, nat_lt};
ghost use Rattle.heap_geometry.specs.declared.geometry.Geometry.{Geometry};
ghost use Rattle.heap_geometry.specs.Geometry.{IsChecked};
ghost use Rattle.word_table.specs.declared.action.Found.{Found};
ghost use Rattle.word_table.specs.Actions.{name_of};
ghost use Rattle.word_table.specs.Counts.{descriptor_count};
ghost use Rattle.word_table.specs.Onwards.{IsOnward, told_onward};
ghost use Rattle.word_table.specs.Table.{Exists};
ghost use Rattle.step_parts.specs.hazard.Points.{FitsDesc, FitsDescExit, named_in, plan_desc_of, seat_of_desc, seat_of_desc_exit, settle_desc_of};
ghost use Rattle.step_parts.specs.hazard.Retired.{first_unheld, without};
ghost use Rattle.step_parts.specs.declared.hazard.point.DescPoint.{DescPoint};

/// A point whose memory exists in a heap acts on a word that exists there, and leads to such a
/// point, or such an exit, of the same seat, whatever it finds.
pub fn points_fit()
    ensures names { (g : Geometry) (caller : ℕ) (p : DescPoint) → IsChecked g → caller < g.callers
        → FitsDesc g caller p → Exists g (name_of (plan_desc_of p)) }
    ensures keeps { (g : Geometry) (caller : ℕ) (p : DescPoint) (x : Found) → IsChecked g
        → x.value < 2 ^ 64 → FitsDesc g caller p
        → IsOnward (FitsDesc g caller) (FitsDescExit g caller) (settle_desc_of p x) }
    ensures seat { (p : DescPoint) (x : Found)
        → told_onward seat_of_desc seat_of_desc_exit (settle_desc_of p x) ≡ seat_of_desc p }
{}

/// What is picked is listed, and no hazard word names it. Nothing is picked exactly where each
/// listed descriptor is named; and this can't be so where the listed descriptors are all different
/// and more than the hazard words that are in use. What is picked of a heap's descriptors is the same
/// by what the hazard words name there as by the words themselves.
pub fn picked_is_not_held()
    ensures listed { (held ds : List ℕ) (d : ℕ) → first_unheld held ds ≡ Some d → Contains ds d }
    ensures free { (held ds : List ℕ) (d : ℕ) → first_unheld held ds ≡ Some d
        → ¬ Contains held (d + 1) }
    ensures none { (held ds : List ℕ)
        → (first_unheld held ds ≡ None) ↔ All (λ d. Contains held (d + 1)) ds }
    ensures some { (held ds : List ℕ) → AllPairs (λ a b. a ≢ b) ds
        → count_by (λ word. nat_lt 0 word) held < length ds → IsSome (first_unheld held ds) }
    ensures named { (g : Geometry) (words ds : List ℕ) → All (λ d. d < descriptor_count g) ds
        → first_unheld (map (named_in g) words) ds ≡ first_unheld words ds }
{}

/// Taking a descriptor off a list joins what stood before it and what stood after it.
pub fn others_keep_their_order()
    ensures { (d : ℕ) (before after : List ℕ) → ¬ Contains before d
        → without d (before ++ d ∷ after) ≡ before ++ after }
{}
