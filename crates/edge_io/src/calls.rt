//! The calls of an edge in memory: how many bytes they move, and which of them fail.

ghost use Rattle.std.specs.Prelude.{◌≡◌, ◌≤◌, ◌<◌, ◌↔◌, ◌⊎◌, IsErr, IsTrue, OnErr};
ghost use Rattle.edge_io.specs.Faults.{FaultsRose};
ghost use Rattle.edge_io.specs.Calls.{IsListed, new_plan, plan_after};

use crate::faults::{Failed, counted};
use std::marker::Model;

/// How many bytes a call moves at most, which calls fail, and what was called so far.
#[derive(Drop)]
pub(crate) struct Calls {
    chunk: usize,
    failing: Vec<u64>,
    made: u64,
    faults: u64,
}

impl Model for Calls {
    ghost use Rattle.std.specs.Prelude.{◌<◌};
    ghost use Rattle.edge_io.specs.Calls.{CallPlan};

    ghost Value = { CallPlan };

    ghost view = { λ c. record {
      chunk = c.chunk;
      failing = c.failing.items;
      made = c.made;
      faults = c.faults;
    } };

    ghost invariant = { λ c. 0 < c.chunk };
}

impl Calls {
    pub(crate) fn new(chunk: usize, failing: Vec<u64>) -> Calls
        requires { 0 < chunk }
        ensures { result ≡ new_plan chunk failing.items }
    {
        Calls {
            chunk,
            failing,
            made: 0,
            faults: 0,
        }
    }

    pub(crate) fn chunk(&self) -> usize
        ensures value { result ≡ self.now.chunk }
        ensures progress { 0 < result }
    {
        self.chunk
    }

    /// Makes a call, which fails where it must and where it is listed.
    pub(crate) fn next_call(&mut self, must_fail: bool) -> Result<(), Failed>
        ensures fails { IsErr result ↔ (IsTrue must_fail ⊎ IsListed self.old) }
        ensures plan { self.new ≡ plan_after self.old result }
        ensures never_falls { self.old.faults ≤ self.new.faults }
        ensures cause { OnErr result (FaultsRose self.old.faults self.new.faults) }
    {
        self.made = counted(self.made);
        if must_fail || self.failing.contains(&self.made) {
            self.faults = counted(self.faults);
            return Err(Failed);
        }
        Ok(())
    }
}
