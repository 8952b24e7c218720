//! A walk through the points of one part of the algorithm, each step of which finds a given word.

use crate::expect::expect;
use std::process::Abort;
use step_parts::hazard::exit::DescExit;
use step_parts::hazard::point::{DescPoint, plan_desc, settle_desc};
use step_parts::partial::exit::PartialExit;
use step_parts::partial::point::{PartialPoint, plan_partial, settle_partial};
use step_parts::stack::exit::StackExit;
use step_parts::stack::point::{StackPoint, plan_stack, settle_stack};
use step_parts::superblock::exit::BlockExit;
use step_parts::superblock::point::{BlockPoint, plan_block, settle_block};
use word_table::action::{Action, Found};
use word_table::name::WordName;

/// A point of one part of the algorithm.
pub trait Point: Copy {
    /// How the part is left.
    type Exit: Copy;

    /// The action that is made there.
    fn plan(&self) -> Action;

    /// Goes on to the point behind it, where the action found this, or answers how the part is left.
    fn settle(&mut self, found: Found) -> Option<Self::Exit>;
}

impl Point for BlockPoint {
    type Exit = BlockExit;

    fn plan(&self) -> Action {
        plan_block(self)
    }

    fn settle(&mut self, found: Found) -> Option<BlockExit> {
        settle_block(self, found)
    }
}

impl Point for StackPoint {
    type Exit = StackExit;

    fn plan(&self) -> Action {
        plan_stack(self)
    }

    fn settle(&mut self, found: Found) -> Option<StackExit> {
        settle_stack(self, found)
    }
}

impl Point for DescPoint {
    type Exit = DescExit;

    fn plan(&self) -> Action {
        plan_desc(self)
    }

    fn settle(&mut self, found: Found) -> Option<DescExit> {
        settle_desc(self, found)
    }
}

impl Point for PartialPoint {
    type Exit = PartialExit;

    fn plan(&self) -> Action {
        plan_partial(self)
    }

    fn settle(&mut self, found: Found) -> Option<PartialExit> {
        settle_partial(self, found)
    }
}

/// The action of a step, the word that it finds, and whether its exchange is won.
pub type Row = (Action, u64, bool);

/// A load of a word that is this.
pub fn load(name: WordName, value: u64) -> Row {
    (Action::Load(name), value, true)
}

/// A store, and the word before it.
pub fn store(name: WordName, value: u64, before: u64) -> Row {
    (Action::Store(name, value), before, true)
}

/// An exchange that is won.
pub fn won(name: WordName, expected: u64, value: u64) -> Row {
    (Action::Cas(name, expected, value), expected, true)
}

/// An exchange that is lost, since it finds another word.
pub fn lost(name: WordName, expected: u64, value: u64, found: u64) -> Row {
    (Action::Cas(name, expected, value), found, false)
}

/// Whether two actions are the same.
fn are_same(one: &Action, other: &Action) -> bool {
    one == other
}

/// Goes through these steps, each of which makes the action of its row, and answers how the last one
/// leaves the part. No other one does.
fn go<R: Abort, P: Point>(rt: &R, at: &mut P, rows: &[Row]) -> Option<P::Exit> {
    let mut exit = None;
    for row in rows {
        let (action, value, won) = *row;
        expect(rt, exit.is_none(), value);
        expect(rt, are_same(&at.plan(), &action), value);
        exit = at.settle(Found { value, won });
    }
    exit
}

/// The point behind these steps, none of which leaves the part.
pub fn walk<R: Abort, P: Point>(rt: &R, first: &P, rows: &[Row]) -> P {
    let mut point = *first;
    let exit = go(rt, &mut point, rows);
    expect(rt, exit.is_none(), 0);
    point
}

/// How the part is left behind these steps; `None` where it isn't.
pub fn leave<R: Abort, P: Point>(rt: &R, first: &P, rows: &[Row]) -> Option<P::Exit> {
    let mut point = *first;
    go(rt, &mut point, rows)
}

/// Behind this point, where its word is found to be this, the plan is the same as before.
pub fn stays<R: Abort, P: Point>(rt: &R, point: &P, value: u64) {
    let mut next = *point;
    let exit = next.settle(Found { value, won: true });
    expect(rt, exit.is_none(), value);
    expect(rt, are_same(&next.plan(), &point.plan()), value);
}
