//! A step of a machine as its caller sees it.

ghost use Rattle.std.specs.Prelude.{ℕ, ◌≡◌, ◌≢◌, IfOk, OnErr};
ghost use Rattle.errand_steps.specs.declared.told.Stepped.TheVariants as stepped;
ghost use Rattle.errand_steps.specs.Begins.{IsIdle, IsBusy};
ghost use Rattle.sound_state.specs.Runs.{steps};
ghost use Rattle.step_machine.specs.Cores.{IsCore, errand_at};
ghost use Rattle.step_machine.specs.Moments.{HasSeenMore};
ghost use Rattle.lane_engine.specs.Machines.{MovesCore, ServesCaller, grip_need, grip_place};
ghost use Rattle.lane_engine.specs.Told.{HasStepped};

use crate::grip::{Grip, Grips};
use errand_steps::told::{Stepped, told};
use std::alloc::AllocError;
use step_machine::machine::Core;

/// Makes one step of a caller of the machine, and says what it came to; none where the caller is idle.
pub fn step(core: &mut Core, caller: u32) -> Result<Stepped<Grip>, AllocError>
    requires serves { ServesCaller core.old caller }
    ensures rule { IsCore core.new }
    ensures geometry { core.new.geometry ≡ core.old.geometry }
    ensures idle { IfOk result (λ told. IsIdle (errand_at core.old.errands caller)
        → (told ≡ stepped.Idle) × (core.new ≡ core.old)) }
    ensures busy { IfOk result (λ told. IsBusy (errand_at core.old.errands caller)
        → HasStepped grip_place grip_need (errand_at core.old.errands caller) (errand_at core.new.errands caller)
        core.old.events core.new.events told) }
    ensures moved { IfOk result (λ told. IsBusy (errand_at core.old.errands caller) → MovesCore core.old (steps caller) core.new) }
    ensures others { (other : ℕ) → other ≢ caller → (errand_at core.new.errands other ≡ errand_at core.old.errands other)
        × HasSeenMore other core.old.events core.new.events }
    ensures err { OnErr result (core.new ≡ core.old) }
{
    let offer = core.offered(caller);
    let progress = core.advance(caller)?;
    // The machine's type keeps what its callers stand on.
    let _ = core.steps();
    Ok(told::<Grips>(progress, offer))
}
