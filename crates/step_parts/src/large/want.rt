//! An allocation of a run of units.

ghost use Rattle.std.specs.Prelude.{◌≡◌};
ghost use Rattle.heap_geometry.specs.Geometry.{IsChecked, IsWithin};
ghost use Rattle.heap_geometry.specs.declared.geometry.Geometry.{Geometry};
ghost use Rattle.heap_geometry.specs.declared.limits.TheConstants.{MAX_UNITS};
ghost use Rattle.step_parts.specs.large.Points.{first_wanted};
ghost use Rattle.step_parts.specs.large.Runs.{WantFields, IsWant};
ghost use Rattle.step_parts.specs.large.Units.{IsFirstRun};

use crate::large::units::first_run;
use heap_geometry::geometry::Geometry;
use std::marker::Model;

/// An allocation of a run of units, in a heap with these numbers.
#[derive(Clone, Copy)]
pub struct Want {
    geometry: Geometry,
    units: u8,
}

impl Model for Want {
    ghost use Rattle.step_parts.specs.large.Runs.{WantFields, IsWant};

    ghost Value = { WantFields };

    ghost view = { λ w. record { geometry = w.geometry; units = w.units } };

    ghost invariant = { λ w. IsWant (record { geometry = w.geometry; units = w.units }) };

    ghost inverse = { λ w. record { geometry = w.geometry; units = w.units } };
}

impl Want {
    /// So many units are wanted, in a heap with these numbers.
    pub fn new(geometry: Geometry, units: u8) -> Want
        requires { IsWant (record { geometry = geometry; units = units }) }
        ensures { result ≡ record { geometry = geometry; units = units } }
    {
        Want { geometry, units }
    }

    /// The heap's numbers.
    pub fn geometry(self) -> Geometry
        ensures value { result ≡ self.geometry }
        ensures checked { IsChecked result }
    {
        self.geometry
    }

    /// How many units are wanted.
    pub fn units(self) -> u8
        ensures value { result ≡ self.units }
        ensures within { IsWithin 1 MAX_UNITS result }
    {
        self.units
    }

    /// The first unit of the lowest free run of as many units, where these bits say which units are
    /// taken; `None` where the heap has none.
    pub fn first(self, bits: u64) -> Option<u8>
        ensures value { result ≡ first_wanted self bits }
        ensures exact { IsFirstRun bits self.geometry.units self.units result }
    {
        first_run(bits, self.geometry.units as u8, self.units)
    }
}
