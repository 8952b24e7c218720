//! Sums of what a run made, to compare it with another program's.

use pool_model::event::Event;
use step_machine::machine::Core;
use word_table::layout::Layout;

/// What all callers have counted, together.
#[derive(Clone, Copy)]
pub struct Counts {
    pub won: u64,
    pub lost: u64,
    pub cleared: u64,
    pub turns: u64,
}

/// The sums of all callers' counts.
pub fn counted(core: &Core) -> Counts {
    let mut counts = Counts {
        won: 0,
        lost: 0,
        cleared: 0,
        turns: 0,
    };
    for caller in 0..core.geometry().callers {
        counts.won = counts.won.wrapping_add(core.won(caller));
        counts.lost = counts.lost.wrapping_add(core.lost(caller));
        counts.cleared = counts.cleared.wrapping_add(core.cleared(caller));
        counts.turns = counts.turns.wrapping_add(core.turns(caller));
    }
    counts
}

/// A sum with one more number, which depends on their order.
fn with(sum: u64, number: u64) -> u64 {
    sum.wrapping_mul(1_000_003).wrapping_add(number)
}

/// The sum of all words in their order.
pub fn words(core: &Core) -> u64 {
    let layout = Layout::new(core.geometry());
    let mut sum = 0;
    for index in 0..layout.words() {
        sum = with(sum, core.word(layout.name(index)));
    }
    sum
}

/// The sum of all events in their order.
pub fn history(events: &[Event]) -> u64 {
    let mut sum = 0;
    for event in events {
        sum = with_event(sum, *event);
    }
    sum
}

/// A sum with a number for the kind of an event, its caller and three more.
fn with_all(sum: u64, kind: u64, caller: u32, first: u32, second: u32, last: u64) -> u64 {
    let sum = with(with(sum, kind), u64::from(caller));
    with(with(with(sum, u64::from(first)), u64::from(second)), last)
}

/// A sum with the numbers of an event.
fn with_event(sum: u64, event: Event) -> u64 {
    match event {
        Event::Alloc {
            caller,
            need,
            place,
        } => with_all(sum, 1, caller, need, place, 0),
        Event::Looked { caller, class } => with_all(sum, 2, caller, u32::from(class), 0, 0),
        Event::Refuse { caller, need } => with_all(sum, 3, caller, need, 0, 0),
        Event::Free { caller, place } => with_all(sum, 4, caller, place, 0, 0),
        Event::Write {
            caller,
            place,
            i,
            v,
        } => with_all(sum, 5, caller, place, i, v),
        Event::Put {
            caller,
            place,
            shelf,
        } => with_all(sum, 6, caller, place, u32::from(shelf), 0),
        Event::Take {
            caller,
            shelf,
            place,
        } => with_all(sum, 7, caller, u32::from(shelf), place, 0),
        Event::TakeNone { caller, shelf } => with_all(sum, 8, caller, u32::from(shelf), 0, 0),
    }
}
