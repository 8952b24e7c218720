//! A run of units.

ghost use Rattle.std.specs.Prelude.{◌≡◌, ◌≤◌, ◌+◌};
ghost use Rattle.heap_geometry.specs.declared.limits.TheConstants.{MAX_UNITS};
ghost use Rattle.step_parts.specs.large.Runs.{RunFields, IsRun};

use std::marker::Model;

/// A run of units.
#[derive(Clone, Copy)]
pub struct UnitRun {
    first: u8,
    units: u8,
}

impl Model for UnitRun {
    ghost use Rattle.step_parts.specs.large.Runs.{RunFields, IsRun};

    ghost Value = { RunFields };

    ghost view = { λ r. record { first = r.first; units = r.units } };

    ghost invariant = { λ r. IsRun (record { first = r.first; units = r.units }) };

    ghost inverse = { λ r. record { first = r.first; units = r.units } };
}

impl UnitRun {
    /// The run of so many units from this one on.
    pub fn new(first: u8, units: u8) -> UnitRun
        requires { IsRun (record { first = first; units = units }) }
        ensures { result ≡ record { first = first; units = units } }
    {
        UnitRun { first, units }
    }

    /// The first unit.
    pub fn first(self) -> u8
        ensures value { result ≡ self.first }
        ensures within { result + self.units ≤ MAX_UNITS }
    {
        self.first
    }

    /// How many units there are.
    pub fn units(self) -> u8
        ensures value { result ≡ self.units }
        ensures some { 1 ≤ result }
        ensures within { self.first + result ≤ MAX_UNITS }
    {
        self.units
    }
}
