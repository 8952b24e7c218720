//! Laws of errands: theorems about the definitions, on functions that do nothing.

ghost use Rattle.std.specs.Prelude.{ℕ, ◌≡◌, ◌<◌, ◌^◌, ◌↔◌, Some, true, false};
ghost use Rattle.heap_geometry.specs.Need.{need_of};
ghost use Rattle.pool_model.specs.Histories.{caller_of};
ghost use Rattle.pool_model.specs.declared.event.Event.{Event};
ghost use Rattle.pool_model.specs.declared.event.Event.TheVariants.{Alloc};
ghost use Rattle.word_table.specs.Actions.{name_of};
ghost use Rattle.word_table.specs.Table.{Exists};
ghost use Rattle.word_table.specs.declared.action.Action.TheVariants.{Store};
ghost use Rattle.word_table.specs.declared.action.Found.{Found};
ghost use Rattle.word_table.specs.declared.name.WordName.{WordName};
ghost use Rattle.errand_steps.specs.Begins.{IsBusy, IsIdle, IsHeapBlock, alloc_answer};
ghost use Rattle.errand_steps.specs.Errands.{ErrandFields, IsErrand, plan_of, settle_of, answer_of, counts_lost, counts_cleared};
ghost use Rattle.errand_steps.specs.Events.{event_of};
ghost use Rattle.errand_steps.specs.declared.reply.Begun.TheVariants as begun;
ghost use Rattle.errand_steps.specs.declared.reply.Reply.{Reply};
ghost use Rattle.errand_steps.specs.declared.reply.Reply.TheVariants.{Spent};
ghost use Rattle.errand_steps.specs.declared.reply.Progress.TheVariants.{Lost, Cleared, Done};

/// An errand acts on a word that its heap has, and keeps its rule whatever it finds. So everything
/// that it remembers exists, before anything is known of the other callers.
pub fn errands_stay_in_their_heap()
    ensures names { (e : ErrandFields) → IsErrand e → Exists e.geometry (name_of (plan_of e)) }
    ensures keeps { (e : ErrandFields) (x : Found) → x.value < 2 ^ 64 → IsErrand e → IsErrand (settle_of e x) }
{}

/// A step's event is its caller's own, and a block that it gives is one of the heap's.
pub fn events_are_of_the_heap()
    ensures own { (e : ErrandFields) (x : Found) (event : Event)
        → event_of e.caller e.point x ≡ Some event → caller_of event ≡ e.caller }
    ensures given { (e : ErrandFields) (x : Found) (caller need place : ℕ) → IsErrand e
        → event_of e.caller e.point x ≡ Some (Alloc caller need place)
        → IsHeapBlock e.geometry place (need_of need) }
{}

/// A step answers that its call is done exactly where the caller is idle after it, and that it is
/// lost, or that it took an empty superblock, exactly where that is counted and the call goes on.
pub fn answers_tell_what_came_to_pass()
    ensures done { (e : ErrandFields) (x : Found) → IsBusy e
        → IsIdle (settle_of e x) ↔ ((r : Reply) × (answer_of e x ≡ Done r)) }
    ensures lost { (e : ErrandFields) (x : Found) → IsBusy e
        → (answer_of e x ≡ Lost) ↔ ((counts_lost e.point x ≡ true) × IsBusy (settle_of e x)) }
    ensures cleared { (e : ErrandFields) (x : Found) → IsBusy e
        → (answer_of e x ≡ Cleared) ↔ ((counts_cleared e.point x ≡ true) × IsBusy (settle_of e x)) }
{}

/// A store tells its caller nothing: whatever the word was, the same errand follows, and the step
/// answers the same.
pub fn stores_are_blind()
    ensures errand { (e : ErrandFields) (name : WordName) (new : ℕ) (x y : Found)
        → plan_of e ≡ Store name new → settle_of e x ≡ settle_of e y }
    ensures answer { (e : ErrandFields) (name : WordName) (new : ℕ) (x y : Found)
        → plan_of e ≡ Store name new → answer_of e x ≡ answer_of e y }
{}

/// An allocation answers that its caller has no turn left only where that has begun as many as its
/// heap allows; and it begins none then.
pub fn spent_is_at_the_limit()
    ensures ends { (e : ErrandFields) (x : Found) → answer_of e x ≡ Done Spent
        → (e.turns ≡ e.geometry.turn_limit) × ((settle_of e x).turns ≡ e.geometry.turn_limit) }
    ensures begins { (e : ErrandFields) (words : ℕ) → alloc_answer e words ≡ begun.Spent
        → e.turns ≡ e.geometry.turn_limit }
{}
