//! Texts that are read, refused and printed.

ghost use Rattle.std.specs.Prelude.{◌≤◌, length};
ghost use Rattle.trace_text.specs.declared.limits.TheConstants.{MAX_INPUT};

use crate::printed::{printed, trace_of};
use heap_geometry::geometry::Geometry;
use std::alloc::{AllocError, Global};
use std::process::Abort;
use std::test::Fail;
use trace_text::fault::{Cause, TraceFault};
use trace_text::limits::MAX_INPUT;
use trace_text::reading::read_trace;
use trace_text::trace::{Lanes, Op, OrderRun, Orders, Version};

/// The trace that a text names is printed so.
pub fn is_printed<R: Abort + AllocGlobal>(rt: &R, text: &[u8], want: &[u8]) -> Result<(), Fail> {
    assert!(rt; text.len() <= MAX_INPUT);
    let printed = printed(rt.alloc(), text)?;
    assert_eq!(rt; printed.as_slice(), want);
    Ok(())
}

/// A text is refused at this line for this cause.
fn is_refused(rt: &HostRuntime, text: &[u8], number: u32, cause: u8) -> bool {
    text.len() <= MAX_INPUT
        && read_trace(rt.alloc(), text).err() == Some(TraceFault::Line { number, cause })
}

/// Whether a text is read as a trace of one lane with these operations.
fn has_one_lane(alloc: Global, text: &[u8], ops: &[Op]) -> Result<bool, Fail>
    requires { length text.now ≤ MAX_INPUT }
{
    let trace = trace_of(alloc, text)?;
    let lanes = trace.lanes.as_slice();
    Ok(lanes.len() == 1 && lanes[0].as_slice() == ops)
}

/// A text is read as a trace of one lane with these operations.
fn is_one_lane<R: Abort + AllocGlobal>(rt: &R, text: &[u8], ops: &[Op]) -> Result<(), Fail> {
    assert!(rt; text.len() <= MAX_INPUT);
    assert!(rt; has_one_lane(rt.alloc(), text, ops)?);
    Ok(())
}

const PLAIN: &str = "heap 4 1 2\nlane\na 0 1 5\na 1 3 7\nc 1\nf 0\nf 1\nend\n";

/// The version of a text, its heap's numbers, whether it names a limit, and how many order runs it has.
fn numbers_of(alloc: Global, text: &[u8]) -> Result<(Version, Geometry, bool, usize), Fail>
    requires { length text.now ≤ MAX_INPUT }
{
    let trace = trace_of(alloc, text)?;
    let orders = trace.orders.as_slice().len();
    Ok((trace.version, trace.heap, trace.named_limit, orders))
}

#[test]
fn a_plain_text(rt: HostRuntime) -> Result<(), Fail> {
    let heap = Geometry {
        frames: 4,
        heaps: 1,
        units: 2,
        callers: 1,
        turn_limit: 68_719_476_735,
    };
    let text = PLAIN.as_bytes();
    assert!(rt; text.len() <= MAX_INPUT);
    let numbers = numbers_of(rt.alloc(), text)?;
    assert_eq!(rt; numbers, (Version::One, heap, false, 0));
    let ops = [
        Op::Alloc {
            r: 0,
            need: 1,
            v: 5,
        },
        Op::Alloc {
            r: 1,
            need: 3,
            v: 7,
        },
        Op::Check { r: 1 },
        Op::Free { r: 0 },
        Op::Free { r: 1 },
    ];
    is_one_lane(&rt, text, &ops)
}

#[test]
fn a_text_of_version_2(rt: HostRuntime) -> Result<(), Fail> {
    let text = "heap2 4 1 2\nlane\na 0 3 10\nr 0 2\nr 1023 131071\nr 1 0\nend\n".as_bytes();
    assert!(rt; text.len() <= MAX_INPUT);
    let (version, ..) = numbers_of(rt.alloc(), text)?;
    assert_eq!(rt; version, Version::Two);
    let ops = [
        Op::Alloc {
            r: 0,
            need: 3,
            v: 10,
        },
        Op::Resize { r: 0, need: 2 },
        Op::Resize {
            r: 1023,
            need: 131_071,
        },
        Op::Resize { r: 1, need: 0 },
    ];
    is_one_lane(&rt, text, &ops)
}

#[test]
fn a_lenient_text(rt: HostRuntime) -> Result<(), Fail> {
    let text =
        "heap 1 1 0\r\n# note\r\n\r\nlane\r\na 0 1 18446744073709551615\r\n\ta\t0  1 2 \r\nw 0 4\r\nc 0\r\nf 0\r\nf 0\r\nc 0\r\nend".as_bytes();
    let ops = [
        Op::Alloc {
            r: 0,
            need: 1,
            v: 18_446_744_073_709_551_615,
        },
        Op::Alloc {
            r: 0,
            need: 1,
            v: 2,
        },
        Op::Fill { r: 0, v: 4 },
        Op::Check { r: 0 },
        Op::Free { r: 0 },
        Op::Free { r: 0 },
        Op::Check { r: 0 },
    ];
    is_one_lane(&rt, text, &ops)
}

#[test]
fn the_largest_need(rt: HostRuntime) -> Result<(), Fail> {
    let larger = "heap 1 1 64\nlane\na 0 131072 1\nend\n".as_bytes();
    assert!(rt; is_refused(&rt, larger, 3, 7));
    let ops = [Op::Alloc {
        r: 0,
        need: 131_071,
        v: 1,
    }];
    let largest = "heap 1 1 64\nlane\na 0 131071 1\nend\n".as_bytes();
    is_one_lane(&rt, largest, &ops)
}

#[test]
fn refused_texts(rt: HostRuntime) {
    let refused: [(&str, u32, u8); 37] = [
        ("", 1, 2),
        ("a 0 1 1\n", 1, 2),
        ("heap 0 1 2\nend\n", 1, 3),
        ("heap 4 1 2\nlane\n", 3, 9),
        ("heap 4 1 2\nlane\na 0 1", 3, 5),
        ("heap 4 1 2\nlane\na 0 x 1\nend\n", 3, 6),
        ("heap 4 1 2\nlane\na 1024 1 1\nend\n", 3, 7),
        ("heap 4 1 2\nlane\nr 0 5\nend\n", 3, 4),
        ("heap 4 1 2\na 0 1 1\nend\n", 2, 4),
        ("heap 4 1 2\nend\nlane\n", 3, 4),
        (
            "heap 4 1 2\nlane\nlane\nlane\nlane\nlane\nlane\nlane\nlane\nlane\nlane\nlane\nlane\nlane\nlane\nlane\nlane\nlane\n",
            18,
            8,
        ),
        ("heap 4 1 2\n\u{e9}", 2, 1),
        ("heap 4 1 2\nlane\norder 1 5\nend\n", 3, 7),
        ("\0", 1, 1),
        ("heap 4097 1 0", 1, 3),
        ("heap 4 1 2 0", 1, 3),
        ("heap 4 1 2 68719476736", 1, 3),
        ("heap 4 1 2\nlane\na 0 1 99999999999999999999", 3, 6),
        ("heap 4 1 2\nlane\nw 01 5\nend\n", 3, 6),
        ("heap 4 1 2\nheap 4 1 2\nend\n", 2, 4),
        ("heap 4 1 2\nend\nend\n", 3, 4),
        ("heap 4 1 2\norder 0 5\nend\n", 2, 7),
        ("heap 4 1 2\nlane\norder 0 5\nlane\nend\n", 4, 4),
        ("heap 4 1 2\nlane\norder 0 5\nf 0\nend\n", 4, 4),
        ("heap 4 1 2\nlane\norder 0 1000001\nend\n", 3, 7),
        ("heap 4 1 2\nlane\nt 0 64\nend\n", 3, 7),
        ("heap 4 1 2\r\r\nend\n", 1, 1),
        ("heap2 4 1 2\nlane\nr 0 131072\nend\n", 3, 7),
        ("heap2 4 1 2\nlane\nr 1024 5\nend\n", 3, 7),
        ("heap2 4 1 2\nlane\nr 0\nend\n", 3, 5),
        ("heap2 4 1 2\nlane\nr 0 5 1\nend\n", 3, 5),
        ("heap2 4 1 2\nlane\nr 0 x\nend\n", 3, 6),
        ("heap2 4 1 2\nr 0 5\nend\n", 2, 4),
        ("heap2 4 1 2\nheap 4 1 2\nend\n", 2, 4),
        ("heap 4 1 2\nheap2 4 1 2\nend\n", 2, 4),
        ("heap2 0 1 2\nend\n", 1, 3),
        ("heap3 4 1 2\nend\n", 1, 2),
    ];
    for (text, number, cause) in refused {
        assert!(rt; is_refused(&rt, text.as_bytes(), number, cause));
    }
}

/// The line and the cause of the first 0 bytes, of the first one, of the first two, and so on.
const CUTS: [(u32, u8); 47] = [
    (1, 2),
    (1, 2),
    (1, 2),
    (1, 2),
    (1, 5),
    (1, 5),
    (1, 5),
    (1, 5),
    (1, 5),
    (1, 5),
    (2, 9),
    (2, 9),
    (2, 4),
    (2, 4),
    (2, 4),
    (3, 9),
    (3, 9),
    (3, 5),
    (3, 5),
    (3, 5),
    (3, 5),
    (3, 5),
    (3, 5),
    (4, 9),
    (4, 9),
    (4, 5),
    (4, 5),
    (4, 5),
    (4, 5),
    (4, 5),
    (4, 5),
    (5, 9),
    (5, 9),
    (5, 5),
    (5, 5),
    (6, 9),
    (6, 9),
    (6, 5),
    (6, 5),
    (7, 9),
    (7, 9),
    (7, 5),
    (7, 5),
    (8, 9),
    (8, 9),
    (8, 4),
    (8, 4),
];

/// How many operations the lane of a text has, where that has one lane.
fn operations_of(alloc: Global, text: &[u8]) -> Result<Option<usize>, Fail>
    requires { length text.now ≤ MAX_INPUT }
{
    let trace = trace_of(alloc, text)?;
    let lanes = trace.lanes.as_slice();
    if lanes.len() == 1 {
        Ok(Some(lanes[0].len()))
    } else {
        Ok(None)
    }
}

#[test]
fn cuts_of_a_text(rt: HostRuntime) -> Result<(), Fail> {
    let text = PLAIN.as_bytes();
    for (bytes, (number, cause)) in CUTS.into_iter().enumerate() {
        assert!(rt; bytes < text.len());
        assert!(rt; is_refused(&rt, &text[..bytes], number, cause));
    }
    assert!(rt; 47 <= text.len() && text.len() <= MAX_INPUT);
    assert_eq!(rt; operations_of(rt.alloc(), &text[..47])?, Some(5));
    Ok(())
}

/// How many callers a text names, and whether these are its order runs.
fn callers_of(alloc: Global, text: &[u8], runs: &[OrderRun]) -> Result<(u32, bool), Fail>
    requires { length text.now ≤ MAX_INPUT }
{
    let trace = trace_of(alloc, text)?;
    Ok((trace.heap.callers, trace.orders.as_slice() == runs))
}

#[test]
fn every_line_is_printed_again(rt: HostRuntime) -> Result<(), Fail> {
    let text =
        "heap 4 2 64 68719476735\nlane\na 1023 131071 18446744073709551615\nw 0 9\nc 0\nf 10\nlane\np 3 63\nt 3 0\nlane\norder 1 1000000\norder 2 1\nend\n".as_bytes();
    let runs = [
        OrderRun {
            lane: 1,
            steps: 1_000_000,
        },
        OrderRun { lane: 2, steps: 1 },
    ];
    assert!(rt; text.len() <= MAX_INPUT);
    assert_eq!(rt; callers_of(rt.alloc(), text, runs.as_slice())?, (3, true));
    is_printed(&rt, text, text)?;
    let resizes = "heap2 4 2 64 7\nlane\na 0 3 10\nr 0 131071\nr 1023 0\nend\n".as_bytes();
    is_printed(&rt, resizes, resizes)
}

#[test]
fn an_unnamed_limit_is_not_printed(rt: HostRuntime) -> Result<(), Fail> {
    let noted = "heap 4 1 2\n # a comment\nend".as_bytes();
    is_printed(&rt, noted, "heap 4 1 2\nend\n".as_bytes())
}

#[test]
fn a_refusal_is_told_in_one_line(rt: HostRuntime) -> Result<(), Fail> {
    let fault = TraceFault::Line {
        number: 18,
        cause: Cause::TooManyLanes.code(),
    };
    let told = format!(in rt.alloc(); "{fault}")?;
    assert_eq!(rt; told.as_str(), "line 18 cause 8");
    Ok(())
}

/// A list of one lane with one operation comes back as it was made; it was empty at first.
fn is_lane_given_back(alloc: Global) -> Result<bool, AllocError> {
    let mut lanes = Lanes::new(Vec::new(alloc));
    let was_empty = lanes.is_empty();
    lanes.push_lane(alloc)?;
    lanes.push_op(Op::Free { r: 3 })?;
    let many = lanes.len();
    let lanes = lanes.into_vec();
    let has_op = lanes.len() == 1 && lanes[0].as_slice() == [Op::Free { r: 3 }].as_slice();
    Ok(was_empty && many == 1 && has_op)
}

/// A list of one order run comes back with it; it was empty at first.
fn is_order_given_back(alloc: Global) -> Result<bool, AllocError> {
    let mut orders = Orders::new(Vec::new(alloc));
    let was_empty = orders.is_empty();
    orders.push(OrderRun { lane: 0, steps: 1 })?;
    Ok(was_empty && orders.into_vec().len() == 1)
}

#[test]
fn lists_are_given_back(rt: HostRuntime) -> Result<(), Fail> {
    assert!(rt; is_lane_given_back(rt.alloc())?);
    assert!(rt; is_order_given_back(rt.alloc())?);
    Ok(())
}
