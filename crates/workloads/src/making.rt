//! The traces of the workloads.

ghost use Rattle.std.specs.Prelude.{◌≡◌, ◌≤◌, ◌<◌, map, IfOk};
ghost use Rattle.trace_text.specs.Traces.{IsTrace};
ghost use Rattle.workloads.specs.declared.making.TheConstants.{MAX_SIZE};
ghost use Rattle.workloads.specs.Made.{made, lane_of, lanes_of, rounds_of};

use crate::kind::Kind;
use crate::larson::larson;
use crate::pipeline::pipeline;
use crate::scalability::scalability;
use crate::threadtest::threadtest;
use heap_geometry::geometry::Geometry;
use heap_geometry::limits::MAX_TURNS;
use rand_core::SeedableRng;
use rand_pcg::Lcg64Xsh32;
use std::alloc::{AllocError, Global};
use trace_text::trace::{Lanes, Op, Orders, Trace, Version};

/// The most rounds of a workload, all lanes together.
pub const MAX_SIZE: u32 = 1_000_000;

/// How many frames the heap of a workload has.
pub const FRAMES: u32 = 1024;

/// How many lanes a workload has.
const LANES: u32 = 8;

/// The rounds of a lane. What is over when the size is shared out goes to the first lanes.
fn rounds(size: u32, lane: u32) -> u32
    ensures { result ≡ rounds_of size lane }
{
    size / LANES + u32::from(lane < size % LANES)
}

/// The operations of a lane.
fn lane_ops(
    alloc: Global,
    kind: Kind,
    draws: &mut Lcg64Xsh32,
    lane: u32,
    rounds: u32,
) -> Result<Vec<Op>, AllocError>
    requires { lane < 8 }
    ensures { IfOk result (λ ops. (ops.items, draws.new) ≡ lane_of kind lane rounds draws.old) }
{
    match kind {
        Kind::Scalability => scalability(alloc, draws, rounds),
        Kind::Threadtest => threadtest(alloc, draws, rounds),
        Kind::Larson => larson(alloc, draws, rounds),
        Kind::Pipeline => pipeline(alloc, draws, lane, rounds),
    }
}

/// The operations of each lane.
fn all_lanes(
    alloc: Global,
    kind: Kind,
    draws: &mut Lcg64Xsh32,
    size: u32,
) -> Result<Vec<Vec<Op>>, AllocError>
    ensures { IfOk result (λ lanes. (map (λ ops. ops.items) lanes.items, draws.new) ≡ lanes_of kind size 8 draws.old) }
{
    let mut lanes = Vec::new(alloc);
    for lane in 0..LANES {
        lanes.push(lane_ops(alloc, kind, draws, lane, rounds(size, lane))?)?;
    }
    Ok(lanes)
}

/// Makes the trace of a workload: `size` rounds over eight lanes, with draws of the generator
/// `Lcg64Xsh32` that `start` seeds. The same kind, size and start give the same trace.
pub fn make_trace(alloc: Global, kind: Kind, size: u32, start: u64) -> Result<Trace, AllocError>
    requires { size ≤ MAX_SIZE }
    ensures made { IfOk result (λ trace. trace ≡ made kind size start) }
    ensures grammar { IfOk result IsTrace }
{
    let mut draws = Lcg64Xsh32::seed_from_u64(start);
    let lanes = all_lanes(alloc, kind, &mut draws, size)?;
    Ok(Trace {
        version: Version::One,
        heap: Geometry {
            frames: FRAMES,
            heaps: 8,
            units: 0,
            callers: LANES,
            turn_limit: MAX_TURNS,
        },
        named_limit: false,
        lanes: Lanes::new(lanes),
        orders: Orders::new(Vec::new(alloc)),
    })
}
