//! One lane of a trace: it hands out requests and takes their answers. Whole calls serve a request at once, or a machine
//! does it by one atomic step after another.

ghost use Rattle.std.specs.Prelude.{◌≡◌, ◌<◌, ◌-◌, ◌^◌, ◌↔◌, ◌++◌, ◌∷◌, List, [], None, Ok, IfOk, OnErr, All, length, min, false, replicate, IsTrue};
ghost use Rattle.std.specs.Vec.{vec_capacity};
ghost use Rattle.trace_text.specs.declared.limits.TheConstants.{REGISTERS};
ghost use Rattle.trace_text.specs.Traces.{IsOp};
ghost use Rattle.trace_lane.specs.Advances.{AdvancesOn, BeginsOperation, GoesOnBy, HasAnswered, HasBegun, LaneGoesOn, MayAnswer, MayBeginCall, MayBeginOperation, MayGoOn, TakesUp};
ghost use Rattle.trace_lane.specs.States.{IsNew, StandsOn};
ghost use Rattle.trace_lane.specs.declared.lane.LaneState.{LaneState};
ghost use Rattle.pool_model.specs.declared.event.Event.{Event};
ghost use Rattle.errand_steps.specs.Calls.{Call};
ghost use Rattle.errand_steps.specs.Errands.{ErrandFields};
ghost use Rattle.trace_text.specs.declared.trace.Op.{Op};
ghost use Rattle.lane_engine.specs.Machines.{ServesCaller};

mod operations;
mod registers;
mod whole;

use crate::request::Next;
use crate::work::{Work, Worked};
use edge_io::gate::Gate;
use errand_steps::reply::Begun;
use errand_steps::told::{Ending, Stepped};
use lane_engine::begins::{NextCall, begin};
use lane_engine::grip::Grip;
use lane_engine::over_core::step;
use lane_outcomes::outcome::Outcome;
use std::alloc::{AllocError, Global};
use step_machine::machine::Core;
use step_machine::token::Token;
use trace_text::limits::REGISTERS;
use trace_text::trace::Op;

/// A lane: what its registers hold, the outcomes of its operations so far, and how far the next one
/// is. `B` is a block that its caller holds.
#[derive(Drop)]
pub struct LaneState<B> {
    caller: u32,
    registers: Vec<Option<B>>,
    outcomes: Vec<Outcome>,
    /// What is under way of a request that is served call by call.
    work: Option<Work<B>>,
}

/// Registers that hold nothing.
fn empty_registers<B: Token + Drop>(alloc: Global) -> Result<Vec<Option<B>>, AllocError>
    ensures { IfOk result (λ registers. registers.items ≡ replicate REGISTERS None) }
{
    let mut registers = Vec::with_capacity(alloc, usize::from(REGISTERS))?;
    for _ in 0..REGISTERS {
        registers.push(None)?;
    }
    Ok(registers)
}

/// The number by which a gate is told of an operation.
fn number_of(op: usize) -> u32
    ensures { result ≡ min op (2 ^ 32 - 1) }
{
    if op < u32::MAX as usize {
        op as u32
    } else {
        u32::MAX
    }
}

impl<B: Token + Drop> LaneState<B> {
    /// The lane before its first operation: its registers are empty, and there is room for the outcome
    /// of each operation.
    pub fn open(alloc: Global, lane: u32, operations: &[Op]) -> Result<LaneState<B>, AllocError>
        requires { All IsOp operations.now }
        ensures { IfOk result (IsNew lane (length operations.now)) }
    {
        let registers = empty_registers(alloc)?;
        let outcomes = Vec::with_capacity(alloc, operations.len())?;
        Ok(LaneState {
            caller: lane,
            registers,
            outcomes,
            work: None,
        })
    }

    /// The number of its caller.
    pub fn caller(&self) -> u32
        ensures { result ≡ self.now.caller }
    {
        self.caller
    }

    /// The outcomes of its operations so far.
    pub fn outcomes(&self) -> &[Outcome]
        ensures { result.now ≡ self.now.outcomes.items }
    {
        self.outcomes.as_slice()
    }

    /// The outcomes of its operations, at its end.
    pub fn into_outcomes(self) -> Vec<Outcome>
        ensures { result ≡ self.outcomes }
    {
        let LaneState { outcomes, .. } = self;
        outcomes
    }

    /// Whether no operation is under way.
    fn is_between(&self) -> bool
        ensures { IsTrue result ↔ self.now.work ≡ None }
    {
        self.work.is_none()
    }

    /// Ends the operation at hand with its outcome, for which there is room.
    fn finish(&mut self, outcome: Outcome)
        requires { length self.old.outcomes.items < vec_capacity self.old.outcomes }
        ensures rest { self.new ≡ record self.old { outcomes = self.new.outcomes } }
        ensures outcomes { self.new.outcomes.items ≡ self.old.outcomes.items ++ outcome ∷ [] }
        ensures room { vec_capacity self.new.outcomes ≡ vec_capacity self.old.outcomes }
    {
        self.outcomes.push_reserved(outcome);
    }

    /// Goes on with an operation: hands out the first call of what it asks for, or gives it its outcome.
    fn take_up(&mut self, next: Next<B>) -> Option<NextCall>
        requires room { length self.old.outcomes.items < vec_capacity self.old.outcomes }
        requires free { self.old.work ≡ None }
        ensures { TakesUp B.place_of B.need_of next self.old result self.new }
    {
        match next {
            Next::Told(outcome) => {
                self.finish(outcome);
                None
            }
            Next::Ask(request) => {
                let work = Work::new(request);
                let call = work.call();
                self.work = Some(work);
                Some(call)
            }
        }
    }

    /// Begins the operation: hands out its first call, or gives it its outcome where it has none.
    fn begin(&mut self, operation: Op) -> Option<NextCall>
        requires operation { IsOp operation }
        requires size { length self.old.registers.items ≡ REGISTERS }
        requires room { length self.old.outcomes.items < vec_capacity self.old.outcomes }
        requires between { self.old.work ≡ None }
        ensures begun { HasBegun B.place_of B.need_of operation self.old result self.new }
    {
        let next = operations::begin(&mut self.registers, operation);
        self.take_up(next)
    }

    /// Goes on by how the call of the operation at hand has ended: hands out the operation's next call, or gives it its
    /// outcome.
    fn answer(&mut self, operation: Op, ended: Ending<B>) -> Option<NextCall>
        requires operation { IsOp operation }
        requires size { length self.old.registers.items ≡ REGISTERS }
        requires room { length self.old.outcomes.items < vec_capacity self.old.outcomes }
        requires ready { MayAnswer B.place_of B.need_of operation ended self.old }
        ensures answered { HasAnswered B.place_of B.need_of operation ended self.old result self.new }
    {
        let Some(work) = self.work.take() else {
            unreachable!()
        };
        match work.answer(ended) {
            Worked::Going(work) => {
                let call = work.call();
                self.work = Some(work);
                Some(call)
            }
            Worked::Answered(answer) => {
                let next = operations::go_on(&mut self.registers, operation, answer);
                self.take_up(next)
            }
        }
    }
}

impl LaneState<Grip> {
    /// Begins the call to which the operation at hand has come, if it has come to one; one that finds no turn left is answered.
    fn begin_call(&mut self, core: &mut Core, operation: Op, next: Option<NextCall>)
        requires serves { ServesCaller core.old self.old.caller }
        requires operation { IsOp operation }
        requires ready { (seen : List Event) × (e : ErrandFields) × (operations : List Op) × (calls : List Call) × (lane : LaneState Grip)
            × MayBeginCall operation next core.old self.old seen e operations calls lane }
        ensures begun { (lane : LaneState Grip) → self.old.caller ≡ lane.caller
            → LaneGoesOn (MayBeginCall operation next core.old self.old) core.old core.new lane self.new }
    {
        let Some(call) = next else {
            return;
        };
        match begin(core, self.caller, call) {
            Begun::Started => {}
            Begun::Spent => {
                let _ = self.answer(operation, Ending::Spent);
            }
            Begun::TooLarge => unreachable!(),
        }
    }

    /// Begins an operation: its first call, or its outcome where it has none, or no turn is left for it.
    fn start(&mut self, core: &mut Core, operation: Op)
        requires serves { ServesCaller core.old self.old.caller }
        requires operation { IsOp operation }
        requires ready { (operations : List Op) × (calls : List Call) × MayBeginOperation operation core.old operations calls self.old }
        ensures begun { BeginsOperation operation core.old core.new self.old self.new }
    {
        let next = self.begin(operation);
        self.begin_call(core, operation, next);
    }

    /// Goes on by what a step of the operation at hand came to: begins its next call, if it has one.
    fn go_on(&mut self, core: &mut Core, operation: Op, told: Stepped<Grip>)
        requires serves { ServesCaller core.old self.old.caller }
        requires operation { IsOp operation }
        requires ready { (seen : List Event) × (e : ErrandFields) × (operations : List Op) × (calls : List Call)
            × MayGoOn operation told core.old seen e operations calls self.old }
        ensures answered { GoesOnBy operation told core.old core.new self.old self.new }
    {
        let Stepped::Done(ended) = told else {
            return;
        };
        let next = self.answer(operation, ended);
        self.begin_call(core, operation, next);
    }

    /// Begins the operations that are next, up to the first one that takes a step; where an operation is
    /// under way nothing begins.
    fn begin_next<G: Gate>(&mut self, core: &mut Core, operations: &[Op], gate: &G)
        requires operations { All IsOp operations.now }
        requires stands { StandsOn core.old operations.now self.old }
        ensures events { core.new.events ≡ core.old.events }
        ensures advanced { AdvancesOn (G.passed gate.now) operations.now core.old core.new self.old self.new false }
        ensures ended { self.new.work ≡ None → length self.new.outcomes.items ≡ length operations.now }
    {
        if !self.is_between() {
            return;
        }
        for op in self.outcomes.len()..operations.len() {
            gate.pass(self.caller, number_of(op));
            self.start(core, operations[op]);
            // Lanes stand on what the machine's type keeps.
            let _ = core.steps();
            if !self.is_between() {
                return;
            }
        }
    }

    /// Makes one atomic step of the lane, and answers true; or answers false where no operation is under
    /// way and none is left that takes a step. Before the step it begins the next operation where none is
    /// under way. Each operation passes the gate before it begins, also one that takes no step, which has
    /// its outcome here. A take that missed the shelf's block is tried again. No memory is taken but what
    /// the machine takes: where it finds none no step is made, an operation that began stays under way,
    /// and the next call makes its step.
    pub fn advance<G: Gate>(
        &mut self,
        core: &mut Core,
        operations: &[Op],
        gate: &G,
    ) -> Result<bool, AllocError>
        requires operations { All IsOp operations.now }
        requires stands { StandsOn core.old operations.now self.old }
        ensures advanced { IfOk result (λ made. AdvancesOn (G.passed gate.now) operations.now core.old core.new self.old self.new made) }
        ensures failed { OnErr result (AdvancesOn (G.passed gate.now) operations.now core.old core.new self.old self.new false) }
        ensures ended { result ≡ Ok false → (self.new.work ≡ None) × (length self.new.outcomes.items ≡ length operations.now) }
        ensures geometry { core.new.geometry ≡ core.old.geometry }
    {
        self.begin_next(core, operations, gate);
        if self.is_between() {
            return Ok(false);
        }
        let told = step(core, self.caller)?;
        let op = self.outcomes.len();
        self.go_on(core, operations[op], told);
        // Lanes stand on what the machine's type keeps.
        let _ = core.steps();
        Ok(true)
    }
}
