//! The line of the steps of a machine.

ghost use Rattle.std.specs.Prelude.{◌≡◌, IfOk};
ghost use Rattle.trace_commands.specs.Closings.{cleared_by_all, steps_line};
ghost use Rattle.lane_runner.specs.Driven.{lost_by_all};

use command_line::wide::write_wide;
use std::alloc::{AllocError, Global};
use step_machine::machine::Core;
use trace_text::text::Text;

/// How many exchanges the callers of a machine lost, all together.
#[tactic(auto, unfolding(sound_state::specs::Sums::callers_sum))]
fn lost_in(core: &Core) -> u128
    ensures { result ≡ lost_by_all core.now }
{
    let callers = core.geometry().callers;
    let mut lost = 0;
    for caller in 0..callers {
        lost += u128::from(core.lost(caller));
    }
    lost
}

/// How many empty superblocks they cleared, all together.
#[tactic(auto, unfolding(sound_state::specs::Sums::callers_sum))]
fn cleared_in(core: &Core) -> u128
    ensures { result ≡ cleared_by_all core.now }
{
    let callers = core.geometry().callers;
    let mut cleared = 0;
    for caller in 0..callers {
        cleared += u128::from(core.cleared(caller));
    }
    cleared
}

/// The line of a machine's steps: how many were made, and what its callers lost and cleared.
pub fn steps_line(alloc: Global, core: &Core) -> Result<Vec<u8>, AllocError>
    ensures { IfOk result (λ text. text.items ≡ steps_line core.now) }
{
    let mut text = Text::new(alloc);
    text.begin("steps")?;
    text.number(core.steps())?;
    text.word("lost")?;
    write_wide(alloc, &mut text, lost_in(core))?;
    text.word("cleared")?;
    write_wide(alloc, &mut text, cleared_in(core))?;
    text.end_line()?;
    Ok(text.into_bytes())
}
