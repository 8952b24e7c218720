//! A live block's usable words are their owner's: no other step is on one; and a block stays its owner's until a
//! free or a put of it. Laws alone.
#![tactic(auto)]

ghost use Rattle.std.specs.Prelude.{ℕ, ◌≡◌, ◌≢◌, ◌<◌, ◌+◌, ◌⊎◌, Some, Contains};
ghost use Rattle.heap_geometry.specs.declared.geometry.Geometry.{Geometry};
ghost use Rattle.heap_geometry.specs.declared.need.Need.{Need};
ghost use Rattle.heap_geometry.specs.Need.{usable_words};
ghost use Rattle.word_table.specs.declared.action.Found.{Found};
ghost use Rattle.word_table.specs.declared.name.WordName.TheVariants.{Arena};
ghost use Rattle.pool_model.specs.declared.owner.Owner.TheVariants.{Caller, Shelf};
ghost use Rattle.pool_model.specs.declared.event.Event.TheVariants.{Free, Put, Take};
ghost use Rattle.pool_model.specs.Pool.{Block, block_at, pool_of};
ghost use Rattle.errand_steps.specs.declared.point.Point.{Point};
ghost use Rattle.errand_steps.specs.Begins.{IsBusy, IsIdle};
ghost use Rattle.errand_steps.specs.Calls.{Call, begun_by, free, put};
ghost use Rattle.errand_steps.specs.Errands.{ErrandFields, settle_of};
ghost use Rattle.errand_steps.specs.Events.{event_of};
ghost use Rattle.errand_steps.specs.Steps.{State, Step, event_at, name_at};
ghost use Rattle.sound_state.specs.Recalls.{IsOwned};
ghost use Rattle.sound_state.specs.Sound.{IsSoundWithoutCounts};
ghost use Rattle.sound_laws.specs.events.UnderWay.{IsAboutBlock};
ghost use Rattle.step_machine.specs.Cores.{OwnsAfter};
ghost use Rattle.step_machine.specs.Keeping.{LeavesPlace};
ghost use Rattle.owned_words.specs.Accesses.{AccessesWord};
ghost use Rattle.owned_words.specs.Leaving.{IsAbout, concerned, leaving};

/// A step on a usable word of a live block is a read or a write of just this word, made by the block's owner.
/// And a read or a write is on a usable word of a block that its caller owns.
pub fn usable_words_are_their_owners()
    ensures only { (g : Geometry) (s : State) (caller word place i : ℕ) (b : Block)
        → IsSoundWithoutCounts g s → caller < g.callers → IsBusy (s.errand caller) → name_at s caller ≡ Arena word
        → block_at place (pool_of s.history) ≡ Some b → word ≡ place + 1 + i → i < usable_words b.need
        → (b.owner ≡ Caller caller) × AccessesWord (s.errand caller).point place i }
    ensures own { (g : Geometry) (s : State) (caller place i : ℕ)
        → IsSoundWithoutCounts g s → caller < g.callers → AccessesWord (s.errand caller).point place i
        → (name_at s caller ≡ Arena (place + 1 + i))
        × ((n : Need) × IsOwned s caller place n × (i < usable_words n)) }
{}

/// A step leaves each block that another caller owns, and each block on a shelf, but one that it takes off: it is
/// there with the same need, owner and contents.
pub fn owners_change_by_their_own_step()
    ensures owned { (g : Geometry) (s : State) (caller other place : ℕ) (after : State) (b : Block)
        → IsSoundWithoutCounts g s → caller < g.callers → Step s caller after → other ≢ caller
        → block_at place (pool_of s.history) ≡ Some b → b.owner ≡ Caller other
        → block_at place (pool_of after.history) ≡ Some b }
    ensures shelved { (g : Geometry) (s : State) (caller shelf place : ℕ) (after : State) (b : Block)
        → IsSoundWithoutCounts g s → caller < g.callers → Step s caller after
        → block_at place (pool_of s.history) ≡ Some b → b.owner ≡ Shelf shelf
        → (block_at place (pool_of after.history) ≡ Some b) ⊎ (event_at s caller ≡ Some (Take caller shelf place)) }
{}

/// What a step of a caller gives away, by a free or by a put, is what its call is about to give away. So a block of
/// the caller's at any other place stays its own behind the step, and serves the same need.
pub fn steps_give_away_what_leaves()
    ensures frees { (caller by place : ℕ) (point : Point) (x : Found) → event_of caller point x ≡ Some (Free by place)
        → Contains (leaving point) place }
    ensures puts { (caller by place shelf : ℕ) (point : Point) (x : Found)
        → event_of caller point x ≡ Some (Put by place shelf) → Contains (leaving point) place }
    ensures stays { (g : Geometry) (s : State) (caller place : ℕ) (after : State) (b : Block)
        → IsSoundWithoutCounts g s → caller < g.callers → Step s caller after
        → block_at place (pool_of s.history) ≡ Some b → b.owner ≡ Caller caller
        → ¬ Contains (leaving (s.errand caller).point) place → OwnsAfter after.history caller place b.need }
{}

/// What leaves behind a step of a call was leaving before it: no step begins to give a block away. Who is in no call
/// is about to give none away; and where a call begins, only the block leaves that it frees or puts, and so none at a
/// place that the call leaves alone.
pub fn what_leaves_was_asked_for()
    ensures settles { (e : ErrandFields) (x : Found) (place : ℕ) → Contains (leaving (settle_of e x).point) place
        → Contains (leaving e.point) place }
    ensures steps { (s : State) (caller place : ℕ) (after : State) → Step s caller after
        → Contains (leaving (after.errand caller).point) place → Contains (leaving (s.errand caller).point) place }
    ensures idle { (e : ErrandFields) (place : ℕ) → IsIdle e → ¬ Contains (leaving e.point) place }
    ensures begins { (e : ErrandFields) (call : Call) (place : ℕ) → IsIdle e → IsAboutBlock e.geometry call
        → Contains (leaving (begun_by e call).point) place
        → ((need : Need) × (call ≡ free place need)) ⊎ ((need : Need) × (shelf : ℕ) × (call ≡ put place need shelf)) }
    ensures spared { (e : ErrandFields) (call : Call) (place : ℕ) → IsIdle e → IsAboutBlock e.geometry call
        → LeavesPlace call place → ¬ Contains (leaving (begun_by e call).point) place }
{}

/// A call is about the block that it is about to give away, and about the one whose usable word it writes or reads.
/// No step makes it be about another block; who is in no call is about none; and where a call begins, it is about the
/// block that it names. A caller's block that its call isn't about stays its own behind a step, and serves the same
/// need.
pub fn calls_are_about_what_they_name()
    ensures leaves { (point : Point) (place : ℕ) → Contains (leaving point) place → Contains (concerned point) place }
    ensures accesses { (point : Point) (place i : ℕ) → AccessesWord point place i → Contains (concerned point) place }
    ensures settles { (e : ErrandFields) (x : Found) (place : ℕ) → Contains (concerned (settle_of e x).point) place
        → Contains (concerned e.point) place }
    ensures idle { (e : ErrandFields) (place : ℕ) → IsIdle e → ¬ Contains (concerned e.point) place }
    ensures begins { (e : ErrandFields) (call : Call) (place : ℕ) → IsIdle e → IsAboutBlock e.geometry call
        → Contains (concerned (begun_by e call).point) place → IsAbout call place }
    ensures stays { (g : Geometry) (s : State) (caller place : ℕ) (after : State) (b : Block)
        → IsSoundWithoutCounts g s → caller < g.callers → Step s caller after
        → block_at place (pool_of s.history) ≡ Some b → b.owner ≡ Caller caller
        → ¬ Contains (concerned (s.errand caller).point) place → OwnsAfter after.history caller place b.need }
{}
