//! How calls come to their ends: how far they are from it, also beside others, and that a caller that
//! moves alone ends its call.

ghost use Rattle.std.specs.Prelude.{ℕ, ◌≡◌, ◌<◌, ◌≤◌, ◌+◌, ◌-◌, ◌*◌, ◌^◌, List, count_by, replicate, true, false, []};
ghost use Rattle.heap_geometry.specs.declared.geometry.Geometry.{Geometry};
ghost use Rattle.heap_geometry.specs.declared.limits.TheConstants.{CALL_STEPS};
ghost use Rattle.errand_steps.specs.Begins.{IsIdle, IsBusy};
ghost use Rattle.errand_steps.specs.Calls.{Call, begun_by};
ghost use Rattle.errand_steps.specs.Errands.{counts_lost, ErrandFields, counts_cleared};
ghost use Rattle.errand_steps.specs.Steps.{State, Step, Run, found_at, name_at};
ghost use Rattle.sound_laws.specs.bounds.Alone.{alone_left, stale_words, clearings, is_stale, available_in, empty_for, emptied_for};
ghost use Rattle.sound_state.specs.Moves.{BeginsNothing, is_begin_of, is_step_of};
ghost use Rattle.sound_state.specs.Runs.{Move, Reaches};
ghost use Rattle.word_table.specs.declared.name.WordName.{WordName};
ghost use Rattle.sound_laws.specs.bounds.Expectations.{expects_of};
ghost use Rattle.word_table.specs.Counts.{descriptor_count};
ghost use Rattle.sound_state.specs.Lists.{Lists, IsListed};
ghost use Rattle.sound_state.specs.Sound.{IsSound};
ghost use Rattle.sound_state.specs.TurnStages.{in_turn};
ghost use Rattle.sound_laws.specs.bounds.StepsLeft.{ComesNearer, steps_left};
ghost use Rattle.sound_state.specs.Turns.{one_if, cleared_of, is_small_free};
ghost use Rattle.sound_state.specs.Sums.{callers_sum};

/// A step of a call loses, clears an empty superblock, or leaves fewer steps to do. So it never meets a
/// word that it does not expect, at which it would be made again.
pub fn steps_go_on()
    ensures { (g : Geometry) (s : State) (caller : ℕ) (after : State)
        → IsSound g s → caller < g.callers → Step s caller after → ComesNearer g s caller after }
{}

/// Every call has fewer than `CALL_STEPS` steps left, however many frames, heaps and callers there are. So,
/// as `steps_go_on` says, it makes fewer than that many between two steps that lose or clear.
pub fn calls_are_short()
    ensures { (g : Geometry) (s : State) (caller : ℕ) → IsSound g s → caller < g.callers
        → steps_left g (s.errand caller).point < CALL_STEPS }
{}

/// So it is in a run of moves of any callers, in whatever order. A caller that begins no call in it makes
/// fewer than `CALL_STEPS` steps, and at most `CALL_STEPS` more for each exchange that it loses and each
/// empty superblock that it clears; each call that it begins allows for as many. Its count of lost
/// exchanges may not stand at its end, where it shows no more of them; its count of cleared ones never
/// does.
pub fn calls_are_short_beside_others()
    ensures call { (g : Geometry) (s : State) (moves : List Move) (after : State) (caller : ℕ) → IsSound g s → caller < g.callers
        → Reaches g s moves after → (after.errand caller).lost < 2 ^ 64 - 1 → BeginsNothing caller moves
        → count_by (is_step_of caller) moves
        < CALL_STEPS * (1 + ((after.errand caller).lost - (s.errand caller).lost) + ((after.errand caller).cleared - (s.errand caller).cleared)) }
    ensures calls { (g : Geometry) (s : State) (moves : List Move) (after : State) (caller : ℕ) → IsSound g s → caller < g.callers
        → Reaches g s moves after → (after.errand caller).lost < 2 ^ 64 - 1
        → count_by (is_step_of caller) moves + steps_left g (after.errand caller).point
        ≤ steps_left g (s.errand caller).point + CALL_STEPS * (count_by (is_begin_of caller) moves
        + ((after.errand caller).lost - (s.errand caller).lost) + ((after.errand caller).cleared - (s.errand caller).cleared)) }
    ensures counts { (g : Geometry) (s : State) (moves : List Move) (after : State) (caller : ℕ) → IsSound g s → caller < g.callers
        → Reaches g s moves after
        → ((s.errand caller).lost ≤ (after.errand caller).lost) × ((s.errand caller).cleared ≤ (after.errand caller).cleared) }
{}

/// A caller that is in a call has a step left to make.
pub fn calls_have_a_step_left()
    ensures { (g : Geometry) (s : State) (caller : ℕ) → IsSound g s → caller < g.callers → IsBusy (s.errand caller)
        → 0 < steps_left g (s.errand caller).point }
{}

/// No step makes a word stale for its own caller. A step that loses meets a stale word; the word that a
/// step is on is not stale after it.
pub fn lost_steps_meet_stale_words()
    ensures stale { (g : Geometry) (s : State) (caller : ℕ) (after : State) (word : WordName) → IsSound g s
        → caller < g.callers → Step s caller after → is_stale after caller word ≡ true → is_stale s caller word ≡ true }
    ensures met { (g : Geometry) (s : State) (caller : ℕ) → IsSound g s → caller < g.callers
        → counts_lost (s.errand caller).point (found_at s caller) ≡ true → is_stale s caller (name_at s caller) ≡ true }
    ensures seen { (g : Geometry) (s : State) (caller : ℕ) (after : State) → IsSound g s → caller < g.callers
        → Step s caller after → is_stale after caller (name_at s caller) ≡ false }
    ensures falls { (g : Geometry) (s : State) (caller : ℕ) (after : State) → IsSound g s → caller < g.callers
        → Step s caller after
        → stale_words g after caller + one_if (counts_lost (s.errand caller).point (found_at s caller)) ≤ stale_words g s caller }
{}

/// No more than two words are ever stale for a caller.
pub fn stale_words_are_few()
    ensures { (g : Geometry) (s : State) (caller : ℕ) → stale_words g s caller ≤ 2 }
{}

/// A call that has just begun expects nothing, whatever the others do meanwhile. So no word is stale for it.
pub fn begun_calls_expect_nothing()
    ensures expects { (e : ErrandFields) (call : Call) → IsIdle e → expects_of (begun_by e call).point ≡ [] }
    ensures stale { (g : Geometry) (s : State) (caller : ℕ) (e : ErrandFields) (call : Call) → IsIdle e
        → s.errand caller ≡ begun_by e call → stale_words g s caller ≡ 0 }
{}

/// A step of an allocation's turn leaves no more EMPTY superblocks out for any class: it empties none, and
/// brings none back whose descriptor was away. One that clears leaves one fewer for its own class. No more are
/// out than small blocks were freed and superblocks not cleared yet. The available descriptors, which don't
/// count there, are those of the list that the head and the next words make.
pub fn turns_empty_no_superblock()
    ensures kept { (g : Geometry) (s : State) (caller : ℕ) (after : State) (class d : ℕ) → IsSound g s
        → caller < g.callers → in_turn (s.errand caller).point ≡ true → Step s caller after → d < descriptor_count g
        → empty_for g after class d ≤ empty_for g s class d }
    ensures falls { (g : Geometry) (s : State) (caller : ℕ) (after : State) → IsSound g s → caller < g.callers
        → Step s caller after
        → clearings g after caller + one_if (counts_cleared (s.errand caller).point (found_at s caller)) ≤ clearings g s caller }
    ensures freed { (g : Geometry) (s : State) (class : ℕ) → IsSound g s
        → emptied_for g s class + callers_sum g cleared_of s.errand ≤ count_by (is_small_free g) s.history }
    ensures available { (g : Geometry) (s : State) (l : Lists) → IsSound g s → IsListed g s.word l
        → available_in g s ≡ l.available }
{}

/// A caller that moves alone ends its call, wherever the others stopped: each of its steps leaves fewer
/// to do, and as many turns as it has steps left end the call.
pub fn alone_calls_end()
    ensures falls { (g : Geometry) (s : State) (caller : ℕ) (after : State) → IsSound g s → caller < g.callers
        → Step s caller after → alone_left g after caller < alone_left g s caller }
    ensures ends { (g : Geometry) (s : State) (caller : ℕ) → IsSound g s → caller < g.callers
        → (n : ℕ) × (after : State) × (n ≤ alone_left g s caller) × Run s (replicate n caller) n after
        × IsIdle (after.errand caller) }
    ensures every { (g : Geometry) (s : State) (caller turns n : ℕ) (after : State) → IsSound g s → caller < g.callers
        → Run s (replicate turns caller) n after → alone_left g s caller ≤ turns → IsIdle (after.errand caller) }
{}

/// What a caller's own turns come to, however many there are, while no other one moves. It makes fewer than
/// `CALL_STEPS` steps, and at most that many more for each exchange that it loses and each empty superblock
/// that it clears, where its count of lost exchanges does not stand still. It loses no more often than words
/// were stale for it, and clears no more superblocks than were left to clear.
pub fn alone_runs_are_short()
    ensures left { (g : Geometry) (s : State) (caller turns n : ℕ) (after : State) → IsSound g s → caller < g.callers
        → Run s (replicate turns caller) n after → n + alone_left g after caller ≤ alone_left g s caller }
    ensures most { (g : Geometry) (s : State) (caller : ℕ) → IsSound g s → caller < g.callers
        → alone_left g s caller < CALL_STEPS * (1 + stale_words g s caller + clearings g s caller) }
    ensures few { (g : Geometry) (s : State) (caller turns n : ℕ) (after : State) → IsSound g s → caller < g.callers
        → Run s (replicate turns caller) n after → (after.errand caller).lost + 1 < 2 ^ 64
        → n < CALL_STEPS * (1 + ((after.errand caller).lost - (s.errand caller).lost)
        + ((after.errand caller).cleared - (s.errand caller).cleared)) }
    ensures lost { (g : Geometry) (s : State) (caller turns n : ℕ) (after : State) → IsSound g s → caller < g.callers
        → Run s (replicate turns caller) n after
        → ((s.errand caller).lost ≤ (after.errand caller).lost)
        × ((after.errand caller).lost + stale_words g after caller ≤ (s.errand caller).lost + stale_words g s caller) }
    ensures cleared { (g : Geometry) (s : State) (caller turns n : ℕ) (after : State) → IsSound g s → caller < g.callers
        → Run s (replicate turns caller) n after
        → ((s.errand caller).cleared ≤ (after.errand caller).cleared)
        × ((after.errand caller).cleared + clearings g after caller ≤ (s.errand caller).cleared + clearings g s caller) }
{}
