//! Lanes that allocate one word and free it, again and again.

ghost use Rattle.std.specs.Prelude.{◌≡◌, IfOk, OnOk};
ghost use Rattle.workloads.specs.Draws.{behind};
ghost use Rattle.workloads.specs.Lanes.{scalability, scalability_round};

use crate::draws::drawn;
use rand_pcg::Lcg64Xsh32;
use std::alloc::{AllocError, Global};
use trace_text::trace::Op;

/// One round. Where memory is not found, the operations may be others.
#[tactic(auto, unfolding(crate::specs::Lanes::scalability_round))]
fn write_round(draws: &mut Lcg64Xsh32, ops: &mut Vec<Op>) -> Result<(), AllocError>
    ensures { OnOk result ((ops.new.items, draws.new) ≡ behind ops.old.items (scalability_round draws.old)) }
{
    let v = u64::from(drawn(draws));
    ops.push(Op::Alloc { r: 0, need: 1, v })?;
    ops.push(Op::Free { r: 0 })?;
    Ok(())
}

/// The operations of a lane.
pub fn scalability(
    alloc: Global,
    draws: &mut Lcg64Xsh32,
    rounds: u32,
) -> Result<Vec<Op>, AllocError>
    ensures { IfOk result (λ ops. (ops.items, draws.new) ≡ scalability rounds draws.old) }
{
    let mut ops = Vec::new(alloc);
    for _round in 0..rounds {
        write_round(draws, &mut ops)?;
    }
    Ok(ops)
}
