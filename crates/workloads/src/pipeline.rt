//! Lanes in pairs: one puts blocks on shelves, and the other takes them.

ghost use Rattle.std.specs.Prelude.{◌≡◌, ◌<◌, IfOk};
ghost use Rattle.workloads.specs.Lanes.{pipeline, produced, consumed, shelf_of};

use crate::draws::drawn;
use rand_pcg::Lcg64Xsh32;
use std::alloc::{AllocError, Global};
use trace_text::trace::Op;

/// The usable words of each block.
const NEED: u32 = 3;

/// How many shelves a pair of lanes has.
const SHELVES_OF_PAIR: u32 = 16;

/// The shelf of a round of a pair.
fn shelf(pair: u32, round: u32) -> u8
    requires { pair < 4 }
    ensures { result ≡ shelf_of pair round }
{
    (SHELVES_OF_PAIR * pair + round % SHELVES_OF_PAIR) as u8
}

/// The operations of the lane that puts.
fn producer(
    alloc: Global,
    draws: &mut Lcg64Xsh32,
    pair: u32,
    rounds: u32,
) -> Result<Vec<Op>, AllocError>
    requires { pair < 4 }
    ensures { IfOk result (λ ops. (ops.items, draws.new) ≡ produced pair rounds draws.old) }
{
    let mut ops = Vec::new(alloc);
    for round in 0..rounds {
        let v = u64::from(drawn(draws));
        ops.push(Op::Alloc {
            r: 0,
            need: NEED,
            v,
        })?;
        ops.push(Op::Put {
            r: 0,
            shelf: shelf(pair, round),
        })?;
    }
    Ok(ops)
}

/// The operations of the lane that takes.
fn consumer(alloc: Global, pair: u32, rounds: u32) -> Result<Vec<Op>, AllocError>
    requires { pair < 4 }
    ensures { IfOk result (λ ops. ops.items ≡ consumed pair rounds) }
{
    let mut ops = Vec::new(alloc);
    for round in 0..rounds {
        ops.push(Op::Take {
            r: 0,
            shelf: shelf(pair, round),
        })?;
        ops.push(Op::Check { r: 0 })?;
        ops.push(Op::Free { r: 0 })?;
    }
    Ok(ops)
}

/// The operations of a lane: an even one puts, and the next one takes.
pub fn pipeline(
    alloc: Global,
    draws: &mut Lcg64Xsh32,
    lane: u32,
    rounds: u32,
) -> Result<Vec<Op>, AllocError>
    requires { lane < 8 }
    ensures { IfOk result (λ ops. (ops.items, draws.new) ≡ pipeline lane rounds draws.old) }
{
    if lane % 2 == 0 {
        producer(alloc, draws, lane / 2, rounds)
    } else {
        consumer(alloc, lane / 2, rounds)
    }
}
