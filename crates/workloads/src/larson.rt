//! Lanes that allocate into registers as they are drawn, and free what was there.

ghost use Rattle.std.specs.Prelude.{◌≡◌, ◌++◌, ◌<◌, IfOk, OnOk};
ghost use Rattle.workloads.specs.Draws.{behind};
ghost use Rattle.workloads.specs.Held.{AreTold, frees_below};
ghost use Rattle.workloads.specs.Lanes.{larson, larson_round, given_back};

use crate::draws::drawn;
use rand_pcg::Lcg64Xsh32;
use std::alloc::{AllocError, Global};
use trace_text::trace::Op;

/// How many registers a lane uses.
const USED: u32 = 64;

/// How many needs may be drawn, from 1 on.
const NEEDS: u32 = 63;

/// Checks and frees what a register holds. Where memory is not found, the operations may be others.
fn write_given_back(ops: &mut Vec<Op>, r: u16, is_held: bool) -> Result<(), AllocError>
    ensures { OnOk result (ops.new.items ≡ ops.old.items ++ given_back r is_held) }
{
    if is_held {
        ops.push(Op::Check { r })?;
        ops.push(Op::Free { r })?;
    }
    Ok(())
}

/// One round, with a flag for each register that holds a block. Where memory is not found, the
/// operations may be others.
fn write_round(
    draws: &mut Lcg64Xsh32,
    ops: &mut Vec<Op>,
    held: &mut [bool; 64],
) -> Result<(), AllocError>
    requires { AreTold held.old ops.old.items }
    ensures ops { OnOk result ((ops.new.items, draws.new) ≡ behind ops.old.items (larson_round ops.old.items draws.old)) }
    ensures held { OnOk result (AreTold held.new ops.new.items) }
{
    let r = drawn(draws) % USED;
    let need = drawn(draws) % NEEDS + 1;
    let v = u64::from(drawn(draws));
    write_given_back(ops, r as u16, held[r as usize])?;
    ops.push(Op::Alloc {
        r: r as u16,
        need,
        v,
    })?;
    held[r as usize] = true;
    Ok(())
}

/// Frees what the registers hold. Where memory is not found, the operations may be others.
fn write_frees(ops: &mut Vec<Op>, held: &[bool; 64]) -> Result<(), AllocError>
    requires { AreTold held.now ops.old.items }
    ensures { OnOk result (ops.new.items ≡ ops.old.items ++ frees_below 64 ops.old.items) }
{
    for r in 0..64u16 {
        if held[r as usize] {
            ops.push(Op::Free { r })?;
        }
    }
    Ok(())
}

/// The operations of a lane.
pub fn larson(alloc: Global, draws: &mut Lcg64Xsh32, rounds: u32) -> Result<Vec<Op>, AllocError>
    ensures { IfOk result (λ ops. (ops.items, draws.new) ≡ larson rounds draws.old) }
{
    let mut ops = Vec::new(alloc);
    let mut held = [false; 64];
    for _round in 0..rounds {
        write_round(draws, &mut ops, &mut held)?;
    }
    write_frees(&mut ops, &held)?;
    Ok(ops)
}
