//! A request that is served by whole calls.

ghost use Rattle.std.specs.Prelude.{◌<◌, ◌≡◌};
ghost use Rattle.heap_geometry.specs.declared.limits.TheConstants.{SHELVES};
ghost use Rattle.trace_lane.specs.declared.request.Request.TheVariants as request;
ghost use Rattle.trace_lane.specs.Requests.{FitsRequest, HasBlocks, HasServed, request_held};

use crate::request::{Answer, Request};
use lane_engine::calls::{Allocated, Calls, Taken};
use std::sync::Wait;
use step_machine::token::Token;

/// Serves a request. A take that missed the shelf's block is tried again.
#[inline(always)]
pub(crate) fn serve<B: Token + Drop, R: Wait, C: Calls<Held = B>>(
    rt: &R,
    calls: &mut C,
    request: Request<B>,
) -> Answer<B>
    requires stands { C.maker.stands calls.old }
    requires owned { HasBlocks (C.maker.owns calls.old) (request_held B.place_of B.need_of request) }
    requires fits { FitsRequest (request_held B.place_of B.need_of request) }
    ensures stands { C.maker.stands calls.new }
    ensures base { C.maker.runs_on calls.new ≡ C.maker.runs_on calls.old }
    ensures served { HasServed B.place_of B.need_of C.maker.called calls.old (request_held B.place_of B.need_of request) result calls.new }
{
    C::calls_keep_blocks();
    match request {
        Request::Allocate { need } => match calls.allocate(rt, need) {
            Allocated::Given(block) => Answer::Given(block),
            Allocated::Refused => Answer::Refused,
            Allocated::Spent => Answer::Spent,
        },
        Request::Free(block) => {
            calls.free(rt, block);
            Answer::Freed
        }
        Request::Fill { block, from } => {
            calls.fill(&block, from);
            Answer::Filled(block)
        }
        Request::Sum(block) => {
            let total = calls.sum(&block);
            Answer::Summed { block, total }
        }
        Request::Copy { from, to } => {
            calls.copy(&from, &to);
            Answer::Copied { from, to }
        }
        Request::Put { block, shelf } => match calls.put(block, shelf) {
            None => Answer::Put,
            Some(back) => Answer::Full(back),
        },
        Request::Take { shelf } => take(rt, calls, shelf),
    }
}

/// Takes the block that lies on a shelf; where another caller changed the shelf in between it tries again.
fn take<B: Token + Drop, R: Wait, C: Calls<Held = B>>(rt: &R, calls: &mut C, shelf: u8) -> Answer<B>
    requires stands { C.maker.stands calls.old }
    requires shelf { shelf < SHELVES }
    ensures stands { C.maker.stands calls.new }
    ensures base { C.maker.runs_on calls.new ≡ C.maker.runs_on calls.old }
    ensures served { HasServed B.place_of B.need_of C.maker.called calls.old (request.Take shelf) result calls.new }
{
    for _ in rt.forever() {
        match calls.take(shelf) {
            Taken::Got(block) => return Answer::Got(block),
            Taken::Empty => return Answer::Empty,
            Taken::Missed { .. } => {}
        }
    }
    unreachable!()
}
