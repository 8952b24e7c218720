//! The machine.

ghost use Rattle.std.specs.Prelude.{ℕ, Some, ◌≡◌, ◌<◌, ◌≤◌, ◌+◌, ◌-◌, ◌*◌, ◌^◌, ◌++◌, All, Ok, OnOk, OnErr, IfOk, IfSome};
ghost use Rattle.std.specs.Result.{IfErr};
ghost use Rattle.heap_geometry.specs.Geometry.{IsChecked};
ghost use Rattle.heap_geometry.specs.Need.{IsNeed, usable_words};
ghost use Rattle.heap_geometry.specs.declared.need.Need.{Need};
ghost use Rattle.pool_model.specs.declared.owner.Owner.TheVariants.{Caller};
ghost use Rattle.pool_model.specs.Pool.{block_at, pool_of};
ghost use Rattle.heap_geometry.specs.declared.limits.TheConstants.{CALL_STEPS, CLASSES, SHELVES};
ghost use Rattle.word_table.specs.Actions.{name_of};
ghost use Rattle.word_table.specs.Table.{Exists};
ghost use Rattle.word_table.specs.Words.{word_in};
ghost use Rattle.errand_steps.specs.Begins.{IsIdle, IsBusy, alloc_begun, alloc_answer, free_begun, write_begun, read_begun, put_begun, take_begun};
ghost use Rattle.errand_steps.specs.Calls.{Call, begun_by};
ghost use Rattle.errand_steps.specs.Offers.{offered_at};
ghost use Rattle.errand_steps.specs.Points.{is_idle};
ghost use Rattle.step_machine.specs.Cores.{errand_at, with_errand, IsCore, OwnsBlock, state_of};
ghost use Rattle.errand_steps.specs.Openings.{opening};
ghost use Rattle.step_machine.specs.Openings.{first_words, IsOpened};
ghost use Rattle.errand_steps.specs.Steps.{with_event, ScheduleSlot, Run};
ghost use Rattle.std.specs.Vec.{vec_len, vec_capacity};
ghost use Rattle.step_machine.specs.Replies.{Replies, RepliesPart, replied_in, ended_by};
ghost use Rattle.step_machine.specs.Seen.{seen};
ghost use Rattle.step_machine.specs.Steps.{IsStepped, IsNext, AnswersSo, RunsPart, counted, RunsAlone};
ghost use Rattle.errand_steps.specs.Errands.{ErrandFields};
ghost use Rattle.sound_laws.specs.bounds.Alone.{clearings, stale_words};

use crate::first::{first_errands, first_table};
use crate::seen::seen_at;
use errand_steps::errand::{Errand, event, plan};
use errand_steps::reply::{Begun, Offer, Progress, Reply};
use heap_geometry::geometry::Geometry;
use heap_geometry::need::Need;
use pool_model::event::Event;
use pool_model::owner::Owner;
use std::alloc::{AllocError, Global};
use std::marker::Model;
use word_table::action::{Action, Found, apply};
use word_table::layout::Layout;
use word_table::name::WordName;

/// The whole machine: the words of a heap, the errand of each caller, the events so far, and the
/// number of steps. A caller is named by its number.
///
/// Every machine is sound, whatever its callers did: `laws::machines_are_sound` says what its type
/// keeps.
#[derive(Drop)]
pub struct Core {
    layout: Layout,
    words: Vec<u64>,
    errands: Vec<Errand>,
    events: Vec<Event>,
    steps: u64,
}

impl Model for Core {
    ghost use Rattle.step_machine.specs.Cores.{CoreFields, IsCore, state_of};

    ghost Value = { CoreFields };

    ghost view = { λ c. record { geometry = c.layout; words = c.words.items; errands = c.errands.items; events = c.events.items; steps = c.steps } };

    ghost invariant = { λ c. IsCore (record { geometry = c.layout; words = c.words.items; errands = c.errands.items; events = c.events.items; steps = c.steps }) };
}

/// A schedule ended early for want of memory, after so many steps.
#[derive(Clone, Copy, Debug, PartialEq, Eq)]
pub struct Stopped {
    pub steps: u64,
}

/// What one step will do: its action, where its word stands in the table, the word afterwards, what the
/// action finds, and the event, if it has one.
#[derive(Clone, Copy)]
struct NextStep {
    action: Action,
    index: u32,
    word: u64,
    found: Found,
    event: Option<Event>,
}

impl Core {
    /// A machine that has made no step: every caller is idle, and all frames and descriptors are free.
    pub fn open(alloc: Global, geometry: Geometry) -> Result<Core, AllocError>
        requires { IsChecked geometry }
        ensures { IfOk result (IsOpened geometry (opening geometry)) }
    {
        Core::open_with(alloc, geometry, None)
    }

    /// The same, where a class is named with a superblock of the class installed.
    pub(crate) fn open_with(
        alloc: Global,
        geometry: Geometry,
        installed: Option<u8>,
    ) -> Result<Core, AllocError>
        requires checked { IsChecked geometry }
        requires class { IfSome installed (λ class. class < CLASSES) }
        ensures { IfOk result (IsOpened geometry (first_words geometry installed)) }
    {
        let layout = Layout::new(geometry);
        let words = first_table(alloc, &layout, installed)?;
        let errands = first_errands(alloc, geometry)?;
        Ok(Core {
            layout,
            words,
            errands,
            events: Vec::new(alloc),
            steps: 0,
        })
    }

    /// Begins an allocation of so many usable words. A small one takes a turn; where the caller has
    /// none left, or no block has so many words, nothing begins.
    pub fn begin_alloc(&mut self, caller: u32, need: u32) -> Begun
        requires caller { caller < self.old.geometry.callers }
        requires idle { IsIdle (errand_at self.old.errands caller) }
        ensures errand { self.new ≡ with_errand self.old caller (alloc_begun (errand_at self.old.errands caller) need) }
        ensures answer { result ≡ alloc_answer (errand_at self.old.errands caller) need }
    {
        self.errands[caller as usize].begin_alloc(need)
    }

    /// Begins the free of the caller's block at this place.
    pub fn begin_free(&mut self, caller: u32, place: u32, need: Need)
        requires caller { caller < self.old.geometry.callers }
        requires idle { IsIdle (errand_at self.old.errands caller) }
        requires owned { OwnsBlock self.old caller place need }
        ensures { self.new ≡ with_errand self.old caller (free_begun (errand_at self.old.errands caller) place need) }
    {
        self.errands[caller as usize].begin_free(place, need);
    }

    /// Begins the write of a usable word of the caller's block; `i` counts them from 0.
    pub fn begin_write(&mut self, caller: u32, place: u32, need: Need, i: u32, v: u64)
        requires caller { caller < self.old.geometry.callers }
        requires idle { IsIdle (errand_at self.old.errands caller) }
        requires owned { OwnsBlock self.old caller place need }
        requires word { i < usable_words need }
        ensures { self.new ≡ with_errand self.old caller (write_begun (errand_at self.old.errands caller) place i v) }
    {
        self.errands[caller as usize].begin_write(place, need, i, v);
    }

    /// Begins the read of a usable word of the caller's block; `i` counts them from 0.
    pub fn begin_read(&mut self, caller: u32, place: u32, need: Need, i: u32)
        requires caller { caller < self.old.geometry.callers }
        requires idle { IsIdle (errand_at self.old.errands caller) }
        requires owned { OwnsBlock self.old caller place need }
        requires word { i < usable_words need }
        ensures { self.new ≡ with_errand self.old caller (read_begun (errand_at self.old.errands caller) place i) }
    {
        self.errands[caller as usize].begin_read(place, need, i);
    }

    /// Begins to put the caller's block on a shelf.
    pub fn begin_put(&mut self, caller: u32, place: u32, need: Need, shelf: u8)
        requires caller { caller < self.old.geometry.callers }
        requires idle { IsIdle (errand_at self.old.errands caller) }
        requires owned { OwnsBlock self.old caller place need }
        requires shelf { shelf < SHELVES }
        ensures { self.new ≡ with_errand self.old caller (put_begun (errand_at self.old.errands caller) place need shelf) }
    {
        self.errands[caller as usize].begin_put(place, need, shelf);
    }

    /// Begins to take the block that lies on a shelf.
    pub fn begin_take(&mut self, caller: u32, shelf: u8)
        requires caller { caller < self.old.geometry.callers }
        requires idle { IsIdle (errand_at self.old.errands caller) }
        requires shelf { shelf < SHELVES }
        ensures { self.new ≡ with_errand self.old caller (take_begun (errand_at self.old.errands caller) shelf) }
    {
        self.errands[caller as usize].begin_take(shelf);
    }

    /// Makes one step of the caller, and says what it came to; none where the caller is idle. Where the
    /// step ends a call, its answer is so: a block that it gives is the caller's, and so on.
    pub fn advance(&mut self, caller: u32) -> Result<Progress, AllocError>
        requires { caller < self.old.geometry.callers }
        ensures idle { IfOk result (λ progress. IsIdle (errand_at self.old.errands caller)
            → (progress ≡ Progress.Idle) × (self.new ≡ self.old)) }
        ensures busy { IfOk result (λ progress. IsBusy (errand_at self.old.errands caller)
            → IsStepped self.old caller progress self.new) }
        ensures meant { IfOk result (λ progress. AnswersSo self.old caller progress self.new) }
        ensures geometry { self.new.geometry ≡ self.old.geometry }
        ensures err { OnErr result (self.new ≡ self.old) }
    {
        if self.idle(caller) {
            Ok(Progress::Idle)
        } else {
            self.step(caller)
        }
    }

    /// Makes one step of a caller that is in a call.
    fn step(&mut self, caller: u32) -> Result<Progress, AllocError>
        requires caller { caller < self.old.geometry.callers }
        requires busy { IsBusy (errand_at self.old.errands caller) }
        ensures ok { IfOk result (λ progress. IsStepped self.old caller progress self.new) }
        ensures meant { IfOk result (λ progress. AnswersSo self.old caller progress self.new) }
        ensures geometry { self.new.geometry ≡ self.old.geometry }
        ensures err { OnErr result (self.new ≡ self.old) }
    {
        let next = self.next_step(caller);
        add_event(&mut self.events, next.event)?;
        self.words[next.index as usize] = next.word;
        let progress = self.errands[caller as usize].go_on(next.action, next.found);
        self.steps = self.steps.saturating_add(1);
        Ok(progress)
    }

    /// What the next step of a caller will do.
    fn next_step(&self, caller: u32) -> NextStep
        requires caller { caller < self.now.geometry.callers }
        requires busy { IsBusy (errand_at self.now.errands caller) }
        ensures { IsNext self.now caller result }
    {
        let errand = &self.errands[caller as usize];
        let action = plan(errand);
        let index = self.layout.index(name_of(&action));
        let (word, found) = apply(&action, self.words[index as usize]);
        NextStep {
            action,
            index,
            word,
            found,
            event: event(errand, found),
        }
    }

    /// Advances these callers in turn, and answers how many steps they made.
    pub fn run_schedule(&mut self, callers: &[u8]) -> Result<u64, Stopped>
        requires { All (λ caller. caller < self.old.geometry.callers) callers.now }
        ensures ok { IfOk result (λ steps. Run (state_of self.old) callers.now steps (state_of self.new)
            × (self.new.steps ≡ counted self.old.steps steps)) }
        ensures err { IfErr result (λ stopped. RunsPart (state_of self.old) callers.now stopped.steps (state_of self.new)
            × (self.new.steps ≡ counted self.old.steps stopped.steps)) }
        ensures geometry { self.new.geometry ≡ self.old.geometry }
    {
        let mut steps = 0;
        for caller in callers {
            match self.fill_slot(u32::from(*caller)) {
                Ok(made) => steps += made,
                Err(_) => return Err(Stopped { steps }),
            }
        }
        Ok(steps)
    }

    /// Advances these callers in turn, as `run_schedule` does, and adds to the list the reply of each call
    /// that ends, with its caller, in their order.
    pub fn run_replies(
        &mut self,
        callers: &[u8],
        replies: &mut Vec<(u8, Reply)>,
    ) -> Result<u64, Stopped>
        requires { All (λ caller. caller < self.old.geometry.callers) callers.now }
        ensures ok { IfOk result (λ steps. Replies (state_of self.old) callers.now steps replies.old.items replies.new.items (state_of self.new)
            × (self.new.steps ≡ counted self.old.steps steps)) }
        ensures err { IfErr result (λ stopped. RepliesPart (state_of self.old) callers.now stopped.steps replies.old.items replies.new.items (state_of self.new)
            × (self.new.steps ≡ counted self.old.steps stopped.steps)) }
        ensures geometry { self.new.geometry ≡ self.old.geometry }
    {
        let mut steps = 0;
        for caller in callers.iter() {
            match self.fill_slot_replied(*caller, replies) {
                Ok(made) => steps += made,
                Err(_) => return Err(Stopped { steps }),
            }
        }
        Ok(steps)
    }

    /// Fills a slot of a schedule, as `fill_slot` does, and adds the reply to the list, where a call ends.
    /// Room for it is made before the step.
    fn fill_slot_replied(
        &mut self,
        caller: u8,
        replies: &mut Vec<(u8, Reply)>,
    ) -> Result<u64, AllocError>
        requires { caller < self.old.geometry.callers }
        ensures slot { IfOk result (λ steps. ScheduleSlot (state_of self.old) caller steps (state_of self.new)) }
        ensures replied { OnOk result (replies.new.items ≡ replies.old.items ++ replied_in (state_of self.old) caller) }
        ensures counts { IfOk result (λ steps. self.new.steps ≡ counted self.old.steps steps) }
        ensures few { IfOk result (λ steps. steps ≤ 1) }
        ensures geometry { self.new.geometry ≡ self.old.geometry }
        ensures err { OnErr result ((self.new ≡ self.old) × (replies.new.items ≡ replies.old.items)) }
    {
        if self.idle(u32::from(caller)) {
            return Ok(0);
        }
        replies.reserve(1)?;
        let progress = self.step(u32::from(caller))?;
        add_reply(replies, caller, progress);
        Ok(1)
    }

    /// Makes steps of this caller alone until its call has ended, wherever the others stopped, and answers
    /// how many; none where it is in no call. It loses no more exchanges than words are stale for it, so
    /// none in a call that has made no step, and clears no more superblocks than are EMPTY and out for its
    /// class; between two of these it makes fewer than `CALL_STEPS` steps.
    pub fn run_alone(&mut self, caller: u32) -> Result<u64, Stopped>
        requires { caller < self.old.geometry.callers }
        ensures ok { IfOk result (λ steps. RunsAlone self.old caller steps self.new
            × IsIdle (errand_at self.new.errands caller)) }
        ensures err { IfErr result (λ stopped. RunsAlone self.old caller stopped.steps self.new
            × IsBusy (errand_at self.new.errands caller)) }
        ensures idle { IsIdle (errand_at self.old.errands caller) → (result ≡ Ok 0) × (self.new ≡ self.old) }
        ensures bound { IfOk result (λ steps. steps
            < CALL_STEPS * (1 + stale_words self.old.geometry (state_of self.old) caller
            + clearings self.old.geometry (state_of self.old) caller)) }
        ensures few { IfOk result (λ steps. (errand_at self.new.errands caller).lost + 1 < 2 ^ 64
            → steps < CALL_STEPS * (1 + ((errand_at self.new.errands caller).lost - (errand_at self.old.errands caller).lost)
            + ((errand_at self.new.errands caller).cleared - (errand_at self.old.errands caller).cleared))) }
        ensures lost { ((errand_at self.old.errands caller).lost ≤ (errand_at self.new.errands caller).lost)
            × ((errand_at self.new.errands caller).lost
            ≤ (errand_at self.old.errands caller).lost + stale_words self.old.geometry (state_of self.old) caller) }
        ensures first { (e : ErrandFields) (call : Call) → IsIdle e → errand_at self.old.errands caller ≡ begun_by e call
            → (errand_at self.new.errands caller).lost ≡ (errand_at self.old.errands caller).lost }
        ensures cleared { ((errand_at self.old.errands caller).cleared ≤ (errand_at self.new.errands caller).cleared)
            × ((errand_at self.new.errands caller).cleared
            ≤ (errand_at self.old.errands caller).cleared + clearings self.old.geometry (state_of self.old) caller) }
        ensures geometry { self.new.geometry ≡ self.old.geometry }
    {
        // What the type keeps of the machine bounds the loop.
        let _ = &self.layout;
        let mut steps = 0;
        while !self.idle(caller) {
            match self.step(caller) {
                Ok(_) => steps += 1,
                Err(_) => return Err(Stopped { steps }),
            }
        }
        Ok(steps)
    }

    /// Fills a slot of a schedule for the caller, and answers how many steps it makes: one where the caller is in a call,
    /// else none.
    fn fill_slot(&mut self, caller: u32) -> Result<u64, AllocError>
        requires { caller < self.old.geometry.callers }
        ensures slot { IfOk result (λ steps. ScheduleSlot (state_of self.old) caller steps (state_of self.new)) }
        ensures counts { IfOk result (λ steps. self.new.steps ≡ counted self.old.steps steps) }
        ensures few { IfOk result (λ steps. steps ≤ 1) }
        ensures geometry { self.new.geometry ≡ self.old.geometry }
        ensures err { OnErr result (self.new ≡ self.old) }
    {
        if self.idle(caller) {
            Ok(0)
        } else {
            let _ = self.step(caller)?;
            Ok(1)
        }
    }

    /// How many steps were made; it stops at 2^64 - 1.
    pub fn steps(&self) -> u64
        ensures rule { IsCore self.now }
        ensures value { result ≡ self.now.steps }
    {
        self.steps
    }

    /// The word of this name.
    pub fn word(&self, name: WordName) -> u64
        requires { Exists self.now.geometry name }
        ensures { result ≡ word_in self.now.geometry self.now.words name }
    {
        self.words[self.layout.index(name) as usize]
    }

    /// The events of the steps so far, the first one first.
    pub fn events(&self) -> &[Event]
        ensures { result.now ≡ self.now.events }
    {
        self.events.as_slice()
    }

    /// The heap's numbers.
    pub fn geometry(&self) -> Geometry
        ensures value { result ≡ self.now.geometry }
        ensures checked { IsChecked result }
    {
        self.layout.geometry()
    }

    /// What the block at this place serves and who owns it; `None` where none is live there. It looks
    /// through the events from the last one back, to the one that gave the block or took it away.
    pub fn block_at(&self, place: u32) -> Option<(Need, Owner)>
        ensures value { result ≡ seen (block_at place (pool_of self.now.events)) }
        ensures need { IfSome result (λ live. IsNeed live.0) }
        ensures owned { (caller : ℕ) (need : Need) → result ≡ Some (need, Caller caller) → OwnsBlock self.now caller place need }
    {
        seen_at(self.events.as_slice(), place)
    }

    /// The block of a put of the caller's that is under way; `None` in any other call, and in none.
    pub fn offered(&self, caller: u32) -> Option<Offer>
        requires { caller < self.now.geometry.callers }
        ensures { result ≡ offered_at (errand_at self.now.errands caller).point }
    {
        self.errands[caller as usize].offered()
    }

    /// How many turns the caller has begun, at most the turn limit.
    pub fn turns(&self, caller: u32) -> u64
        requires { caller < self.now.geometry.callers }
        ensures { result ≡ (errand_at self.now.errands caller).turns }
    {
        self.errands[caller as usize].turns()
    }

    /// How many exchanges the caller has lost, at most 2^64 - 1.
    pub fn lost(&self, caller: u32) -> u64
        requires { caller < self.now.geometry.callers }
        ensures { result ≡ (errand_at self.now.errands caller).lost }
    {
        self.errands[caller as usize].lost()
    }

    /// How many exchanges the caller has won, at most 2^64 - 1.
    pub fn won(&self, caller: u32) -> u64
        requires { caller < self.now.geometry.callers }
        ensures { result ≡ (errand_at self.now.errands caller).won }
    {
        self.errands[caller as usize].won()
    }

    /// How many empty superblocks the caller's allocations took for partial ones, at most 2^64 - 1.
    pub fn cleared(&self, caller: u32) -> u64
        requires { caller < self.now.geometry.callers }
        ensures { result ≡ (errand_at self.now.errands caller).cleared }
    {
        self.errands[caller as usize].cleared()
    }

    /// Whether the caller is in no call.
    pub fn idle(&self, caller: u32) -> bool
        requires { caller < self.now.geometry.callers }
        ensures { result ≡ is_idle (errand_at self.now.errands caller).point }
    {
        self.errands[caller as usize].idle()
    }
}

/// The word that an action is on.
fn name_of(action: &Action) -> WordName
    ensures { result ≡ name_of action.now }
{
    match *action {
        Action::Load(name)
        | Action::Store(name, _)
        | Action::Cas(name, _, _)
        | Action::Swap(name, _)
        | Action::And(name, _) => name,
    }
}

/// Adds the reply of a step, where it ends its caller's call. There is room for it.
fn add_reply(replies: &mut Vec<(u8, Reply)>, caller: u8, progress: Progress)
    requires { vec_len replies.old < vec_capacity replies.old }
    ensures { replies.new.items ≡ replies.old.items ++ ended_by caller progress }
{
    if let Progress::Done(reply) = progress {
        let _ = replies.push((caller, reply));
    }
}

/// Adds the event of a step, where it has one.
fn add_event(events: &mut Vec<Event>, event: Option<Event>) -> Result<(), AllocError>
    ensures ok { OnOk result (events.new.items ≡ with_event events.old.items event) }
    ensures err { OnErr result (events.new.items ≡ events.old.items) }
{
    if let Some(event) = event {
        events.push(event)?;
    }
    Ok(())
}
