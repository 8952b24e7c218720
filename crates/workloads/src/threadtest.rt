//! Lanes that allocate a batch of blocks, and then check and free each.

ghost use Rattle.std.specs.Prelude.{◌≡◌, ◌++◌, ◌<◌, ◌≤◌, IfOk, OnOk};
ghost use Rattle.workloads.specs.Draws.{behind};
ghost use Rattle.workloads.specs.Lanes.{threadtest, batch, batch_allocs, batch_frees};

use crate::draws::drawn;
use rand_pcg::Lcg64Xsh32;
use std::alloc::{AllocError, Global};
use trace_text::trace::Op;

/// The rounds of a full batch.
const BATCH: u32 = 64;

/// The usable words of each block.
const NEED: u32 = 7;

/// The first rounds of a batch, which allocate. Where memory is not found, the operations may be
/// others.
fn write_allocs(draws: &mut Lcg64Xsh32, ops: &mut Vec<Op>, rounds: u16) -> Result<(), AllocError>
    ensures { OnOk result ((ops.new.items, draws.new) ≡ behind ops.old.items (batch_allocs rounds draws.old)) }
{
    for r in 0..rounds {
        let v = u64::from(drawn(draws));
        ops.push(Op::Alloc { r, need: NEED, v })?;
    }
    Ok(())
}

/// The end of a batch: each block is checked and freed. Where memory is not found, the operations
/// may be others.
fn write_frees(ops: &mut Vec<Op>, rounds: u16) -> Result<(), AllocError>
    ensures { OnOk result (ops.new.items ≡ ops.old.items ++ batch_frees rounds) }
{
    for r in 0..rounds {
        ops.push(Op::Check { r })?;
        ops.push(Op::Free { r })?;
    }
    Ok(())
}

/// A batch of so many rounds. Where memory is not found, the operations may be others.
fn write_batch(draws: &mut Lcg64Xsh32, ops: &mut Vec<Op>, rounds: u32) -> Result<(), AllocError>
    requires { rounds ≤ 64 }
    ensures { OnOk result ((ops.new.items, draws.new) ≡ behind ops.old.items (batch rounds draws.old)) }
{
    write_allocs(draws, ops, rounds as u16)?;
    write_frees(ops, rounds as u16)
}

/// The operations of a lane.
pub fn threadtest(alloc: Global, draws: &mut Lcg64Xsh32, rounds: u32) -> Result<Vec<Op>, AllocError>
    ensures { IfOk result (λ ops. (ops.items, draws.new) ≡ threadtest rounds draws.old) }
{
    let mut ops = Vec::new(alloc);
    for _full in 0..rounds / BATCH {
        write_batch(draws, &mut ops, BATCH)?;
    }
    write_batch(draws, &mut ops, rounds % BATCH)?;
    Ok(ops)
}
