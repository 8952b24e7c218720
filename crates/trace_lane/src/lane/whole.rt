//! A lane whose requests are served by whole calls.

ghost use Rattle.std.specs.Prelude.{◌≡◌, ◌≤◌, None, All, length, vec_capacity};
ghost use Rattle.trace_text.specs.declared.limits.TheConstants.{REGISTERS};
ghost use Rattle.trace_text.specs.Traces.{IsOp};
ghost use Rattle.trace_lane.specs.declared.request.Next.TheVariants as next;
ghost use Rattle.trace_lane.specs.Made.{GoesFurther, HasRun, HoldsBlocks, Makes, MayGoFurther, MayMake};
ghost use Rattle.trace_lane.specs.Paths.{FirstPassed};

use super::operations::{begin, go_on};
use super::{LaneState, number_of};
use crate::request::{Next, Request};
use crate::serve::serve;
use edge_io::gate::Gate;
use lane_engine::calls::Calls;
use lane_outcomes::outcome::Outcome;
use std::sync::Wait;
use step_machine::token::Token;
use trace_text::trace::Op;

impl<B: Token + Drop> LaneState<B> {
    /// Serves what an operation asks for, and goes on with it by the answer. An outcome stays.
    #[inline(always)]
    fn further<R: Wait, C: Calls<Held = B>>(
        &mut self,
        rt: &R,
        calls: &mut C,
        operation: Op,
        next: Next<B>,
    ) -> Next<B>
        requires operation { IsOp operation }
        requires stands { C.maker.stands calls.old }
        requires size { length self.old.registers.items ≡ REGISTERS }
        requires ready { MayGoFurther B.place_of B.need_of C.maker operation next calls.old self.old }
        ensures stands { C.maker.stands calls.new }
        ensures base { C.maker.runs_on calls.new ≡ C.maker.runs_on calls.old }
        ensures size { length self.new.registers.items ≡ REGISTERS }
        ensures gone { GoesFurther B.place_of B.need_of C.maker.called operation next calls.old calls.new self.old self.new result }
    {
        C::calls_keep_blocks();
        match next {
            Next::Told(outcome) => Next::Told(outcome),
            Next::Ask(request) => {
                let answer = serve(rt, calls, request);
                go_on(&mut self.registers, operation, answer)
            }
        }
    }

    /// The outcome of an operation that asks for more than its kind mostly does. None asks more than three times.
    #[inline(never)]
    fn rest<R: Wait, C: Calls<Held = B>>(
        &mut self,
        rt: &R,
        calls: &mut C,
        operation: Op,
        request: Request<B>,
    ) -> Outcome
        requires operation { IsOp operation }
        requires stands { C.maker.stands calls.old }
        requires size { length self.old.registers.items ≡ REGISTERS }
        requires ready { MayGoFurther B.place_of B.need_of C.maker operation (next.Ask request) calls.old self.old }
        ensures stands { C.maker.stands calls.new }
        ensures base { C.maker.runs_on calls.new ≡ C.maker.runs_on calls.old }
        ensures ended { GoesFurther B.place_of B.need_of C.maker.called operation (next.Ask request) calls.old calls.new self.old self.new (next.Told result) }
    {
        let second = self.further(rt, calls, operation, Next::Ask(request));
        let third = self.further(rt, calls, operation, second);
        match self.further(rt, calls, operation, third) {
            Next::Told(outcome) => outcome,
            Next::Ask(_) => unreachable!(),
        }
    }

    /// Makes an operation that mostly asks once.
    #[inline(always)]
    fn ask_once<R: Wait, C: Calls<Held = B>>(&mut self, rt: &R, calls: &mut C, operation: Op)
        requires operation { IsOp operation }
        requires ready { MayMake B.place_of B.need_of C.maker calls.old self.old }
        ensures stands { C.maker.stands calls.new }
        ensures base { C.maker.runs_on calls.new ≡ C.maker.runs_on calls.old }
        ensures made { Makes B.place_of B.need_of C.maker operation calls.old calls.new self.old self.new }
    {
        C::calls_keep_blocks();
        let first = match begin(&mut self.registers, operation) {
            Next::Told(outcome) => return self.finish(outcome),
            Next::Ask(request) => request,
        };
        let answer = serve(rt, calls, first);
        match go_on(&mut self.registers, operation, answer) {
            Next::Told(outcome) => self.finish(outcome),
            Next::Ask(request) => {
                let outcome = self.rest(rt, calls, operation, request);
                self.finish(outcome)
            }
        }
    }

    /// Makes an operation that mostly asks twice.
    #[inline(always)]
    fn ask_twice<R: Wait, C: Calls<Held = B>>(&mut self, rt: &R, calls: &mut C, operation: Op)
        requires operation { IsOp operation }
        requires ready { MayMake B.place_of B.need_of C.maker calls.old self.old }
        ensures stands { C.maker.stands calls.new }
        ensures base { C.maker.runs_on calls.new ≡ C.maker.runs_on calls.old }
        ensures made { Makes B.place_of B.need_of C.maker operation calls.old calls.new self.old self.new }
    {
        C::calls_keep_blocks();
        let first = match begin(&mut self.registers, operation) {
            Next::Told(outcome) => return self.finish(outcome),
            Next::Ask(request) => request,
        };
        let answer = serve(rt, calls, first);
        let second = match go_on(&mut self.registers, operation, answer) {
            Next::Told(outcome) => return self.finish(outcome),
            Next::Ask(request) => request,
        };
        let answer = serve(rt, calls, second);
        match go_on(&mut self.registers, operation, answer) {
            Next::Told(outcome) => self.finish(outcome),
            Next::Ask(request) => {
                let outcome = self.rest(rt, calls, operation, request);
                self.finish(outcome)
            }
        }
    }

    /// Makes an operation by whole calls, and has its outcome. Each kind has code of its own: this is the inner loop of a
    /// whole run, and a request that goes through memory costs it one part in ten.
    fn make<R: Wait, C: Calls<Held = B>>(&mut self, rt: &R, calls: &mut C, operation: Op)
        requires operation { IsOp operation }
        requires ready { MayMake B.place_of B.need_of C.maker calls.old self.old }
        ensures stands { C.maker.stands calls.new }
        ensures base { C.maker.runs_on calls.new ≡ C.maker.runs_on calls.old }
        ensures made { Makes B.place_of B.need_of C.maker operation calls.old calls.new self.old self.new }
    {
        // Each operation is built anew, since LLVM makes one arm of those that are the same.
        match operation {
            Op::Alloc { r, need, v } => self.ask_twice(rt, calls, Op::Alloc { r, need, v }),
            Op::Free { r } => self.ask_once(rt, calls, Op::Free { r }),
            Op::Fill { r, v } => self.ask_once(rt, calls, Op::Fill { r, v }),
            Op::Check { r } => self.ask_once(rt, calls, Op::Check { r }),
            Op::Put { r, shelf } => self.ask_once(rt, calls, Op::Put { r, shelf }),
            Op::Take { r, shelf } => self.ask_once(rt, calls, Op::Take { r, shelf }),
            Op::Resize { r, need } => self.ask_twice(rt, calls, Op::Resize { r, need }),
        }
    }

    /// Runs a lane of which no operation is under way to its end. Each operation passes the gate before it
    /// begins. A take that missed the shelf's block is tried again.
    pub fn run<R: Wait, C: Calls<Held = B>, G: Gate>(
        &mut self,
        rt: &R,
        calls: &mut C,
        operations: &[Op],
        gate: &G,
    )
        requires stands { C.maker.stands calls.old }
        requires operations { All IsOp operations.now }
        requires between { self.old.work ≡ None }
        requires holds { HoldsBlocks B.place_of B.need_of (C.maker.owns calls.old) self.old.registers.items }
        requires room { length operations.now ≤ vec_capacity self.old.outcomes }
        requires within { length self.old.outcomes.items ≤ length operations.now }
        ensures stands { C.maker.stands calls.new }
        ensures base { C.maker.runs_on calls.new ≡ C.maker.runs_on calls.old }
        ensures holds { HoldsBlocks B.place_of B.need_of (C.maker.owns calls.new) self.new.registers.items }
        ensures ran { HasRun B.place_of B.need_of C.maker.called operations.now calls.old calls.new self.old self.new }
        ensures ended { length self.new.outcomes.items ≡ length operations.now }
        ensures passed { FirstPassed (G.passed gate.now) self.old.caller (length self.old.outcomes.items)
            → FirstPassed (G.passed gate.now) self.old.caller (length operations.now) }
    {
        for op in self.outcomes.len()..operations.len() {
            gate.pass(self.caller, number_of(op));
            self.make(rt, calls, operations[op]);
        }
    }
}
