//! The numbers that one heap is opened with.

ghost use Rattle.std.specs.Prelude.{◌≡◌, ◌↔◌, IfOk, IsErrOf};
ghost use Rattle.heap_geometry.specs.Geometry.{IsChecked, IsWithin};
ghost use Rattle.heap_geometry.specs.declared.limits.TheConstants.{MAX_FRAMES, MAX_HEAPS, MAX_UNITS, MAX_CALLERS, MAX_TURNS};

use crate::limits::{MAX_CALLERS, MAX_FRAMES, MAX_HEAPS, MAX_TURNS, MAX_UNITS};

/// The numbers that one heap is opened with.
#[derive(Clone, Copy, Debug, PartialEq, Eq)]
pub struct Geometry {
    /// Frames for superblocks, from 1 to `MAX_FRAMES`.
    pub frames: u32,
    /// Processor heaps of each class, from 1 to `MAX_HEAPS`.
    pub heaps: u32,
    /// Units for large blocks, at most `MAX_UNITS`.
    pub units: u32,
    /// Callers, from 1 to `MAX_CALLERS`.
    pub callers: u32,
    /// The most turns of one caller, from 1 to `MAX_TURNS`.
    pub turn_limit: u64,
}

/// The first number of a geometry that is out of its range.
#[derive(Clone, Copy, Debug, PartialEq, Eq)]
pub enum BadGeometry {
    Frames,
    Heaps,
    Units,
    Callers,
    TurnLimit,
}

impl Geometry {
    /// Tests the ranges, in the order of the fields, and answers the same numbers.
    pub fn check(self) -> Result<Geometry, BadGeometry>
        ensures ok { IfOk result (λ g. (g ≡ self) × IsChecked self) }

        // Each refusal comes exactly where its number is out of range and no earlier one is.
        ensures frames { IsErrOf result BadGeometry.Frames ↔ (¬ IsWithin 1 MAX_FRAMES self.frames) }
        ensures heaps { IsErrOf result BadGeometry.Heaps
            ↔ (IsWithin 1 MAX_FRAMES self.frames × ¬ IsWithin 1 MAX_HEAPS self.heaps) }
        ensures units { IsErrOf result BadGeometry.Units
            ↔ (IsWithin 1 MAX_FRAMES self.frames × IsWithin 1 MAX_HEAPS self.heaps
            × ¬ IsWithin 0 MAX_UNITS self.units) }
        ensures callers { IsErrOf result BadGeometry.Callers
            ↔ (IsWithin 1 MAX_FRAMES self.frames × IsWithin 1 MAX_HEAPS self.heaps
            × IsWithin 0 MAX_UNITS self.units × ¬ IsWithin 1 MAX_CALLERS self.callers) }
        ensures turn_limit { IsErrOf result BadGeometry.TurnLimit
            ↔ (IsWithin 1 MAX_FRAMES self.frames × IsWithin 1 MAX_HEAPS self.heaps
            × IsWithin 0 MAX_UNITS self.units × IsWithin 1 MAX_CALLERS self.callers
            × ¬ IsWithin 1 MAX_TURNS self.turn_limit) }
    {
        if self.frames < 1 || self.frames > MAX_FRAMES {
            return Err(BadGeometry::Frames);
        }
        if self.heaps < 1 || self.heaps > MAX_HEAPS {
            return Err(BadGeometry::Heaps);
        }
        if self.units > MAX_UNITS {
            return Err(BadGeometry::Units);
        }
        if self.callers < 1 || self.callers > MAX_CALLERS {
            return Err(BadGeometry::Callers);
        }
        if self.turn_limit < 1 || self.turn_limit > MAX_TURNS {
            return Err(BadGeometry::TurnLimit);
        }
        Ok(self)
    }
}
