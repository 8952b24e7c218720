//! Laws of memory caches: theorems about the definitions, on functions that do nothing.

ghost use Rattle.std.specs.Prelude.{◌≡◌, []};
ghost use Rattle.errand_steps.specs.Begins.{IsIdle};
ghost use Rattle.live_heap.specs.Heaps.{HeapFields};
ghost use Rattle.live_heap.specs.declared.pass.Pass.{Pass};
ghost use Rattle.live_heap.specs.Holdings.{HoldsExactly};
ghost use Rattle.live_heap.specs.Passes.{IsFresh, IsOf};
ghost use Rattle.memory_cache.specs.Settled.{IsSettled};

/// A pass in no call that holds no blocks is settled, as one of a new heap is: so a cache may stand in front of it. A
/// pass that is settled and has no words out holds none.
pub fn passes_with_nothing_are_settled()
    ensures settled { (h : HeapFields) (p : Pass) → IsOf h p → IsIdle p.errand → HoldsExactly p [] → IsSettled h p }
    ensures fresh { (h : HeapFields) (p : Pass) → IsFresh h p → IsSettled h p }
    ensures nothing { (h : HeapFields) (p : Pass) → IsSettled h p → p.out ≡ 0 → HoldsExactly p [] }
{}
