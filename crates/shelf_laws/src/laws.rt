//! Laws of shelves and of pipes over them: theorems about the definitions, on functions that do nothing.

ghost use Rattle.std.specs.Prelude.{ℕ, ◌≡◌, ◌≤◌, ◌<◌, ◌*◌, ◌+◌, ◌≢◌, ◌↔◌, List, [], ◌∷◌, ◌++◌, length, Some, All, count_by, slice_get};
ghost use Rattle.heap_geometry.specs.declared.geometry.Geometry.{Geometry};
ghost use Rattle.pool_model.specs.declared.event.Event.{Event};
ghost use Rattle.pool_model.specs.declared.event.Event.TheVariants.{Put, Take};
ghost use Rattle.pool_model.specs.Calls.{Ended, EventsOf, EventsSoFar};
ghost use Rattle.pool_model.specs.Histories.{own};
ghost use Rattle.pool_model.specs.Legal.{IsEmptyShelf, IsLegalWithoutCounts};
ghost use Rattle.pool_model.specs.Parcels.{Parcel, is_put_on, is_take_off, parcel_of, puts_on, takes_off};
ghost use Rattle.pool_model.specs.Pool.{Block, block_at, pool_of};
ghost use Rattle.shelf_laws.specs.Quiet.{HandsNothingOver, IsOutside, IsPrefix, IsQuiet, IsQuietAfter, is_put_of, is_take_of, sender_of, sent, taken, turn_of};
ghost use Rattle.shelf_laws.specs.Turns.{IsPutInTurn};

/// In a legal history the j-th take from a shelf takes the block of the j-th put there, with all that it
/// contained then: said of the events (`event`), and of the lists of what was put and what was taken
/// (`parcel`), in which each put and each take stands once.
pub fn takes_answer_puts_in_turn()
    ensures event { (g : Geometry) (history rest : List Event) (caller shelf place : ℕ) (block : Block)
        → IsLegalWithoutCounts g (history ++ Take caller shelf place ∷ rest) → block_at place (pool_of history) ≡ Some block
        → IsPutInTurn history shelf place block }
    ensures parcel { (g : Geometry) (history : List Event) (shelf number : ℕ) (parcel : Parcel) → IsLegalWithoutCounts g history
        → slice_get (takes_off shelf history) number ≡ Some parcel → slice_get (puts_on shelf history) number ≡ Some parcel }
    ensures puts { (g : Geometry) (history : List Event) (shelf : ℕ) → IsLegalWithoutCounts g history
        → length (puts_on shelf history) ≡ count_by (is_put_on shelf) history }
    ensures takes { (g : Geometry) (history : List Event) (shelf : ℕ) → IsLegalWithoutCounts g history
        → length (takes_off shelf history) ≡ count_by (is_take_off shelf) history }
{}

/// In a legal history that is quiet for a pipe, what the receiver took of each sender is a first part of what
/// that sender sent, block by block with all contents. It is all of it where as many were taken as were sent,
/// and then no shelf of that sender holds a block; and it is all of it where no shelf of that sender holds one.
pub fn quiet_pipes_keep_order()
    ensures prefix { (g : Geometry) (history : List Event) (senders shelves sender : ℕ) → 0 < shelves → sender < senders
        → IsLegalWithoutCounts g history → IsQuiet senders shelves history
        → IsPrefix (taken senders shelves sender history) (sent shelves sender history) }
    ensures all { (g : Geometry) (history : List Event) (senders shelves sender : ℕ) → 0 < shelves → sender < senders
        → IsLegalWithoutCounts g history → IsQuiet senders shelves history
        → count_by (is_take_of senders shelves sender) history ≡ count_by (is_put_of shelves sender) history
        → taken senders shelves sender history ≡ sent shelves sender history }
    ensures empty { (g : Geometry) (history : List Event) (senders shelves shelf : ℕ) → 0 < shelves → shelf < senders * shelves
        → IsLegalWithoutCounts g history → IsQuiet senders shelves history
        → count_by (is_take_of senders shelves (sender_of shelves shelf)) history
        ≡ count_by (is_put_of shelves (sender_of shelves shelf)) history
        → IsEmptyShelf (pool_of history) shelf }
    ensures drained { (g : Geometry) (history : List Event) (senders shelves sender : ℕ) → 0 < shelves → sender < senders
        → IsLegalWithoutCounts g history → IsQuiet senders shelves history
        → ((shelf : ℕ) → sender_of shelves shelf ≡ sender → IsEmptyShelf (pool_of history) shelf)
        → taken senders shelves sender history ≡ sent shelves sender history }
{}

/// What was sent grows by one block with each put of the sender on its shelves, what was taken with each take
/// of the receiver from them, by the block as it is then; no other event changes either.
pub fn pipes_grow_by_puts_and_takes()
    ensures sent { (g : Geometry) (history : List Event) (shelves sender : ℕ) → IsLegalWithoutCounts g history
        → length (sent shelves sender history) ≡ count_by (is_put_of shelves sender) history }
    ensures taken { (g : Geometry) (history : List Event) (senders shelves sender : ℕ) → IsLegalWithoutCounts g history
        → length (taken senders shelves sender history) ≡ count_by (is_take_of senders shelves sender) history }
    ensures put { (history : List Event) (shelves sender place shelf : ℕ) (block : Block) → sender_of shelves shelf ≡ sender
        → block_at place (pool_of history) ≡ Some block
        → sent shelves sender (history ++ Put sender place shelf ∷ []) ≡ sent shelves sender history ++ parcel_of block ∷ [] }
    ensures take { (history : List Event) (senders shelves sender place shelf : ℕ) (block : Block) → sender_of shelves shelf ≡ sender
        → block_at place (pool_of history) ≡ Some block
        → taken senders shelves sender (history ++ Take senders shelf place ∷ [])
        ≡ taken senders shelves sender history ++ parcel_of block ∷ [] }
    ensures unsent { (history more : List Event) (shelves sender : ℕ) → count_by (is_put_of shelves sender) more ≡ 0
        → sent shelves sender (history ++ more) ≡ sent shelves sender history }
    ensures untaken { (history more : List Event) (senders shelves sender : ℕ) → count_by (is_take_of senders shelves sender) more ≡ 0
        → taken senders shelves sender (history ++ more) ≡ taken senders shelves sender history }
{}

/// A history is quiet for a pipe exactly where each caller's own events are; and how many blocks were sent and
/// taken is seen in the events of the sender and of the receiver.
pub fn quiet_is_said_by_each_caller()
    ensures quiet { (senders shelves : ℕ) (history : List Event)
        → IsQuiet senders shelves history ↔ ((caller : ℕ) → IsQuiet senders shelves (own caller history)) }
    ensures puts { (shelves sender : ℕ) (history : List Event)
        → count_by (is_put_of shelves sender) (own sender history) ≡ count_by (is_put_of shelves sender) history }
    ensures takes { (senders shelves sender : ℕ) (history : List Event)
        → count_by (is_take_of senders shelves sender) (own senders history) ≡ count_by (is_take_of senders shelves sender) history }
{}

/// A list of events is quiet event by event; and events that touch no shelf of the pipe leave it quiet, with
/// the same turns.
pub fn quiet_grows_by_events()
    ensures none { (senders shelves : ℕ) → IsQuiet senders shelves [] }
    ensures event { (senders shelves : ℕ) (events : List Event) (event : Event)
        → IsQuiet senders shelves (events ++ event ∷ [])
        ↔ (IsQuiet senders shelves events × IsQuietAfter senders shelves events event) }
    ensures outside { (senders shelves : ℕ) (events more : List Event) → IsQuiet senders shelves events
        → All (IsOutside senders shelves) more → IsQuiet senders shelves (events ++ more) }
    ensures turns { (senders shelves sender : ℕ) (events more : List Event) → 0 < shelves → sender < senders
        → All (IsOutside senders shelves) more
        → (count_by (is_put_of shelves sender) (events ++ more) ≡ count_by (is_put_of shelves sender) events)
        × (count_by (is_take_of senders shelves sender) (events ++ more) ≡ count_by (is_take_of senders shelves sender) events) }
{}

/// A message that goes over the shelf of its turn leaves the pipe quiet, where it is put and where it is taken,
/// and moves that turn on by one: each sender counts its own puts, and the receiver its takes of each sender.
pub fn messages_go_by_turns()
    ensures home { (shelves sender i : ℕ) → 0 < shelves → sender_of shelves (turn_of shelves sender i) ≡ sender }
    ensures within { (senders shelves sender i : ℕ) → 0 < shelves → sender < senders → turn_of shelves sender i < senders * shelves }
    ensures put { (senders shelves sender place : ℕ) (events : List Event) → 0 < shelves → IsQuiet senders shelves events
        → IsQuiet senders shelves (events ++ Put sender place (turn_of shelves sender (count_by (is_put_of shelves sender) events)) ∷ []) }
    ensures take { (senders shelves sender place : ℕ) (events : List Event) → 0 < shelves → IsQuiet senders shelves events
        → IsQuiet senders shelves
        (events ++ Take senders (turn_of shelves sender (count_by (is_take_of senders shelves sender) events)) place ∷ []) }
    ensures next_put { (shelves sender place shelf : ℕ) (events : List Event) → sender_of shelves shelf ≡ sender
        → count_by (is_put_of shelves sender) (events ++ Put sender place shelf ∷ []) ≡ count_by (is_put_of shelves sender) events + 1 }
    ensures next_take { (senders shelves sender place shelf : ℕ) (events : List Event) → sender_of shelves shelf ≡ sender
        → count_by (is_take_of senders shelves sender) (events ++ Take senders shelf place ∷ [])
        ≡ count_by (is_take_of senders shelves sender) events + 1 }
    ensures same_take { (senders shelves sender place shelf : ℕ) (events : List Event) → sender_of shelves shelf ≢ sender
        → count_by (is_take_of senders shelves sender) (events ++ Take senders shelf place ∷ [])
        ≡ count_by (is_take_of senders shelves sender) events }
{}

/// The events of a call touch no shelf unless the call puts a block or takes one; nor do those of a call that
/// is under way and can end so.
pub fn other_calls_touch_no_shelf()
    ensures ended { (senders shelves caller : ℕ) (ended : Ended) (events : List Event) → HandsNothingOver ended
        → EventsOf caller ended events → All (IsOutside senders shelves) events }
    ensures so_far { (senders shelves caller : ℕ) (ended : Ended) (events : List Event) → HandsNothingOver ended
        → EventsSoFar caller ended events → All (IsOutside senders shelves) events }
{}
