//! The events of a call as a whole: those that its caller has added since it began are the first ones,
//! and at its end all, of the events of a call that ends so.

ghost use Rattle.std.specs.Prelude.{ℕ, ◌≡◌, ◌≢◌, ◌<◌, ◌^◌, List, [], Some, false};
ghost use Rattle.heap_geometry.specs.declared.need.Need.{Need};
ghost use Rattle.word_table.specs.Actions.{is_won};
ghost use Rattle.word_table.specs.declared.action.Found.{Found};
ghost use Rattle.pool_model.specs.Calls.{Ended, EventsOf, EventsSoFar, alloc_too_large, alloc_spent};
ghost use Rattle.pool_model.specs.declared.event.Event.{Event};
ghost use Rattle.errand_steps.specs.Begins.{IsIdle, IsBusy, alloc_answer};
ghost use Rattle.errand_steps.specs.Calls.{Call, alloc, put, begun_by};
ghost use Rattle.errand_steps.specs.Errands.{ErrandFields, IsErrand, plan_of, settle_of, answer_of};
ghost use Rattle.errand_steps.specs.Events.{event_of};
ghost use Rattle.errand_steps.specs.Offers.{offered_at};
ghost use Rattle.errand_steps.specs.Steps.{with_event};
ghost use Rattle.errand_steps.specs.Points.{is_idle};
ghost use Rattle.errand_steps.specs.declared.point.Point.{Point};
ghost use Rattle.errand_steps.specs.declared.reply.Begun.TheVariants as begun;
ghost use Rattle.errand_steps.specs.declared.reply.Offer.{Offer};
ghost use Rattle.errand_steps.specs.declared.reply.Reply.{Reply};
ghost use Rattle.errand_steps.specs.declared.reply.Progress.TheVariants.{Done};
ghost use Rattle.sound_laws.specs.events.Ends.{end_of, HasEnded};
ghost use Rattle.sound_laws.specs.events.UnderWay.{IsUnderWay, IsAboutBlock};

pub mod runs;

/// A caller in no call that begins one has added no event of it. Every call begins, but for an
/// allocation that answers that none does; that one has ended, without an event.
pub fn calls_begin_without_events()
    ensures begins { (e : ErrandFields) (call : Call) → IsIdle e → IsAboutBlock e.geometry call
        → IsBusy (begun_by e call) → IsUnderWay e.caller call (begun_by e call).point [] }
    ensures started { (e : ErrandFields) (words : ℕ) → alloc_answer e words ≡ begun.Started
        → IsBusy (begun_by e (alloc words)) }
    ensures others { (e : ErrandFields) (call : Call) → IsAboutBlock e.geometry call
        → ((words : ℕ) → call ≢ alloc words) → IsBusy (begun_by e call) }
    ensures too_large { (e : ErrandFields) (words : ℕ) → alloc_answer e words ≡ begun.TooLarge
        → (begun_by e (alloc words) ≡ e) × EventsOf e.caller alloc_too_large [] }
    ensures spent { (e : ErrandFields) (words : ℕ) → alloc_answer e words ≡ begun.Spent
        → (begun_by e (alloc words) ≡ e) × EventsOf e.caller (alloc_spent words) [] }
{}

/// A step of a call adds the next of the call's events, or none. Where the call goes on they are the
/// caller's events so far; where it ends, with any answer, they are the events of a call that ends so.
pub fn steps_add_the_events_of_a_call()
    ensures goes_on { (e : ErrandFields) (x : Found) (call : Call) (events : List Event) → IsErrand e
        → x.value < 2 ^ 64 → x.won ≡ is_won (plan_of e) x.value → IsUnderWay e.caller call e.point events
        → IsBusy (settle_of e x)
        → IsUnderWay e.caller call (settle_of e x).point (with_event events (event_of e.caller e.point x)) }
    ensures ends { (e : ErrandFields) (x : Found) (call : Call) (events : List Event) (reply : Reply) → IsErrand e
        → x.value < 2 ^ 64 → x.won ≡ is_won (plan_of e) x.value → IsUnderWay e.caller call e.point events
        → answer_of e x ≡ Done reply
        → HasEnded e.caller call reply (with_event events (event_of e.caller e.point x)) }
{}

/// A call that is under way has a caller that is busy, and its events so far are the first ones of a
/// call that ends with some answer of its own.
pub fn calls_under_way_can_end()
    ensures busy { (caller : ℕ) (call : Call) (point : Point) (events : List Event)
        → IsUnderWay caller call point events → is_idle point ≡ false }
    ensures so_far { (caller : ℕ) (call : Call) (point : Point) (events : List Event)
        → IsUnderWay caller call point events
        → (reply : Reply) × (end : Ended) × (end_of call reply ≡ Some end) × EventsSoFar caller end events }
{}

/// A put that is under way offers the block that it began with, and no other call offers one. So where
/// the shelf is full its caller has its own block back.
pub fn puts_offer_their_block()
    ensures puts { (caller place : ℕ) (need : Need) (shelf : ℕ) (point : Point) (events : List Event)
        → IsUnderWay caller (put place need shelf) point events
        → offered_at point ≡ Some (record { place = place; need = need }) }
    ensures others { (caller : ℕ) (call : Call) (point : Point) (events : List Event) (offer : Offer)
        → IsUnderWay caller call point events → offered_at point ≡ Some offer
        → (shelf : ℕ) × (call ≡ put offer.place offer.need shelf) }
{}
