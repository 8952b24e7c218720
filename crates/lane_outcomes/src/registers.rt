//! The registers of a lane.

ghost use Rattle.std.specs.Prelude.{◌≡◌, None, replicate, slice_set};
ghost use Rattle.trace_text.specs.declared.limits.TheConstants.{REGISTERS};
ghost use Rattle.lane_outcomes.specs.Lane.{held_in};

use heap_geometry::need::Need;
use std::marker::Model;
use trace_text::limits::REGISTERS;

/// A block in a register or a magazine, by its numbers: outcomes are judged without a heap. They tell `words`, which are
/// counted of any outcomes; that `need` has so many is for a history to say.
#[derive(Clone, Copy, Debug, PartialEq, Eq)]
pub struct HeldBlock {
    /// The arena word of the block's prefix.
    pub place: u32,
    /// The block's usable words.
    pub words: u32,
    /// What the block serves.
    pub need: Need,
}

/// What each register of a lane holds.
#[derive(Drop)]
pub struct Registers {
    held: [Option<HeldBlock>; REGISTERS as usize],
}

impl Model for Registers {
    ghost use Rattle.std.specs.Prelude.{◌≡◌, List, Option, length};
    ghost use Rattle.trace_text.specs.declared.limits.TheConstants.{REGISTERS};
    ghost use Rattle.lane_outcomes.specs.declared.registers.HeldBlock.{HeldBlock};

    ghost Value = { List (Option HeldBlock) };

    ghost view = { λ r. r.held };

    ghost invariant = { λ r. length r.held ≡ REGISTERS };
}

impl Registers {
    /// Empty registers.
    pub fn new() -> Registers
        ensures { result ≡ replicate REGISTERS None }
    {
        Registers {
            held: [None; REGISTERS as usize],
        }
    }

    /// What the register holds, and nothing where there is no such register.
    pub fn get(&self, r: u16) -> Option<HeldBlock>
        ensures { result ≡ held_in self.now r }
    {
        match self.held.get(usize::from(r)) {
            Some(held) => *held,
            None => None,
        }
    }

    /// Changes what the register holds, if there is such a register.
    pub fn set(&mut self, r: u16, held: Option<HeldBlock>)
        ensures { self.new ≡ slice_set self.old r held }
    {
        if r < REGISTERS {
            self.held[usize::from(r)] = held;
        }
    }
}
