//! The units of a heap as the bits of a word. A bit is 1 where its unit is taken.

ghost use Rattle.std.specs.Prelude.{◌≡◌, ◌≤◌, ◌+◌};
ghost use Rattle.heap_geometry.specs.Geometry.{IsWithin};
ghost use Rattle.heap_geometry.specs.declared.limits.TheConstants.{MAX_UNITS};
ghost use Rattle.step_parts.specs.large.Units.{IsFirstRun, first_run_of, is_free, run_bits, other_bits, with_run};

/// The lowest unit that begins `n` clear bits among the first `units`; `None` where there is none.
pub fn first_run(bits: u64, units: u8, n: u8) -> Option<u8>
    requires units { units ≤ MAX_UNITS }
    requires wanted { IsWithin 1 MAX_UNITS n }
    ensures value { result ≡ first_run_of bits units n }
    ensures exact { IsFirstRun bits units n result }
{
    for first in 0..(units + 1).saturating_sub(n) {
        if is_free(bits, first, n) {
            return Some(first);
        }
    }
    None
}

/// Whether no unit of the run is taken.
fn is_free(bits: u64, first: u8, units: u8) -> bool
    requires some { 1 ≤ units }
    requires within { first + units ≤ MAX_UNITS }
    ensures { result ≡ is_free bits first units }
{
    bits & run_bits(first, units) == 0
}

/// The bits of a run.
fn run_bits(first: u8, units: u8) -> u64
    requires some { 1 ≤ units }
    requires within { first + units ≤ MAX_UNITS }
    ensures { result ≡ run_bits first units }
{
    u64::MAX >> (u64::BITS - u32::from(units)) << u32::from(first)
}

/// The bits of all units but those of a run.
pub fn other_bits(first: u8, units: u8) -> u64
    requires some { 1 ≤ units }
    requires within { first + units ≤ MAX_UNITS }
    ensures { result ≡ other_bits first units }
{
    !run_bits(first, units)
}

/// The word with the units of a run taken.
pub fn with_run(bits: u64, first: u8, units: u8) -> u64
    requires some { 1 ≤ units }
    requires within { first + units ≤ MAX_UNITS }
    ensures { result ≡ with_run bits first units }
{
    bits | run_bits(first, units)
}
