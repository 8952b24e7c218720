//! The call that a caller of a machine begins.

ghost use Rattle.std.specs.Prelude.{◌≡◌};
ghost use Rattle.errand_steps.specs.Begins.{IsIdle};
ghost use Rattle.sound_state.specs.Runs.{begins};
ghost use Rattle.step_machine.specs.Cores.{errand_at};
ghost use Rattle.lane_engine.specs.Begins.{begin_answer, call_of};
ghost use Rattle.lane_engine.specs.Callers.{FitsCall, OwnsFor};
ghost use Rattle.lane_engine.specs.Machines.{MovesCore, ServesCaller};

use errand_steps::reply::Begun;
use heap_geometry::need::Need;
use step_machine::machine::Core;

/// A call, with the numbers that name what it is about. `place` is the arena word of a block's prefix, `i` counts
/// its words from 0.
#[derive(Clone, Copy, Debug, PartialEq, Eq)]
pub enum NextCall {
    Alloc {
        need: u32,
    },
    Free {
        place: u32,
        need: Need,
    },
    Write {
        place: u32,
        need: Need,
        i: u32,
        value: u64,
    },
    Read {
        place: u32,
        need: Need,
        i: u32,
    },
    Put {
        place: u32,
        need: Need,
        shelf: u8,
    },
    Take {
        shelf: u8,
    },
}

/// Begins a call of a caller that is in none, and says whether it has begun: an allocation doesn't where its caller
/// has no turn left.
pub fn begin(core: &mut Core, caller: u32, call: NextCall) -> Begun
    requires serves { ServesCaller core.old caller }
    requires idle { IsIdle (errand_at core.old.errands caller) }
    requires owned { OwnsFor core.old.events caller (call_of call) }
    requires fits { FitsCall (call_of call) }
    ensures called { MovesCore core.old (begins caller (call_of call)) core.new }
    ensures answer { result ≡ begin_answer (errand_at core.old.errands caller) (call_of call) }
{
    match call {
        NextCall::Alloc { need } => return core.begin_alloc(caller, need),
        NextCall::Free { place, need } => core.begin_free(caller, place, need),
        NextCall::Write {
            place,
            need,
            i,
            value,
        } => core.begin_write(caller, place, need, i, value),
        NextCall::Read { place, need, i } => core.begin_read(caller, place, need, i),
        NextCall::Put { place, need, shelf } => core.begin_put(caller, place, need, shelf),
        NextCall::Take { shelf } => core.begin_take(caller, shelf),
    }
    Begun::Started
}
