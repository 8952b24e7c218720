//! A run of steps.

ghost use Rattle.std.specs.Prelude.{◌≡◌, ◌<◌, IfOk};
ghost use Rattle.heap_geometry.specs.Geometry.{IsChecked};

use crate::command::Mix;
use crate::machine::mix::{Hands, begin};
use errand_steps::reply::{Progress, Reply};
use heap_geometry::geometry::Geometry;
use heap_scripts::random::Random;
use std::alloc::{AllocError, Global};
use step_machine::machine::Core;

/// A machine whose callers have had so many turns, each of them a step. A caller that is in no call begins
/// one of the mix.
pub fn run(
    alloc: Global,
    mix: Mix,
    seed: u64,
    count: u64,
    geometry: Geometry,
) -> Result<Core, AllocError>
    requires { IsChecked geometry }
    ensures { IfOk result (λ core. core.geometry ≡ geometry) }
{
    let mut core = Core::open(alloc, geometry)?;
    let mut hands = Hands::new(alloc, geometry.callers)?;
    let mut random = Random::new(seed, 0);
    let mut caller = 0;
    for _ in 0..count {
        if core.idle(caller) {
            begin(&mut core, &mut hands, &mut random, mix, caller);
        }
        match core.advance(caller)? {
            Progress::Done(Reply::Given { place, .. }) | Progress::Done(Reply::Got { place, .. }) =>
                {
                    hands.set(caller, Some(place));
                }
            Progress::Done(Reply::Put) => hands.set(caller, None),
            _ => {}
        }
        caller = next_caller(&mut random, mix, caller, geometry.callers);
    }
    Ok(core)
}

/// Whose turn is the next one.
fn next_caller(random: &mut Random, mix: Mix, caller: u32, callers: u32) -> u32
    requires { 0 < callers }
    ensures { result < callers }
{
    match mix {
        Mix::Mingled => random.below(callers),
        Mix::Hold | Mix::All if caller < callers - 1 => caller + 1,
        _ => 0,
    }
}
