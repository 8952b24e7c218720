//! Laws of the edges: theorems about the definitions, on functions that do nothing.

ghost use Rattle.std.specs.Prelude.{ℕ, ◌≡◌, ◌≤◌, List, [], Option, Some, IfSome};
ghost use Rattle.std.specs.Io.KnownBytes.{Consumes};
ghost use Rattle.edge_io.specs.Faults.{FaultsRose};
ghost use Rattle.edge_io.specs.Source.{IsZeroAtEnd};

/// Where faults rose in a part of a call, they rose in the call.
pub fn faults_rise_with_their_part()
    ensures { (before from to after : ℕ) → before ≤ from → from ≤ to → to ≤ after
        → FaultsRose from to → FaultsRose before after }
{}

/// Where the bytes are told before the first read, and the last read answered 0, the reads before it
/// gave all of the bytes, and none is left.
pub fn zero_ends_the_bytes()
    ensures { (first last end : Option (List ℕ)) (given : List ℕ)
        → Consumes first last given → Consumes last end [] → IsZeroAtEnd last 0
        → IfSome first (λ xs. (xs ≡ given) × (end ≡ Some [])) }
{}
