//! Texts of generated traces.

ghost use Rattle.std.specs.Prelude.{◌≤◌};
ghost use Rattle.workloads.specs.declared.making.TheConstants.{MAX_SIZE};

use crate::texts::is_printed;
use std::alloc::{AllocError, Global};
use std::process::Abort;
use std::test::Fail;
use trace_text::printing::print_trace;
use workloads::kind::Kind;
use workloads::making::{MAX_SIZE, make_trace};

/// The text of a workload's trace.
fn text_of<R: Abort + AllocGlobal>(
    rt: &R,
    kind: Kind,
    size: u32,
    start: u64,
) -> Result<Vec<u8>, Fail> {
    assert!(rt; size <= MAX_SIZE);
    let trace = make_trace(rt.alloc(), kind, size, start)?;
    Ok(print_trace(rt.alloc(), &trace)?)
}

/// A number in which the place of each byte counts.
fn sum_of(text: &[u8]) -> u32 {
    text.iter().fold(0, |sum: u32, byte| {
        sum.wrapping_mul(31).wrapping_add(u32::from(*byte))
    })
}

/// The text of a workload's trace is this.
fn is_text<R: Abort + AllocGlobal>(
    rt: &R,
    kind: Kind,
    size: u32,
    start: u64,
    want: &str,
) -> Result<(), Fail> {
    let text = text_of(rt, kind, size, start)?;
    assert_eq!(rt; text.as_slice(), want.as_bytes());
    Ok(())
}

const EMPTY: &str = "heap 1024 8 0\nlane\nlane\nlane\nlane\nlane\nlane\nlane\nlane\nend\n";

#[test]
fn no_rounds(rt: HostRuntime) -> Result<(), Fail> {
    let kinds = [
        Kind::Scalability,
        Kind::Threadtest,
        Kind::Larson,
        Kind::Pipeline,
    ];
    for kind in kinds {
        for start in [0, 7, 18_446_744_073_709_551_615] {
            is_text(&rt, kind, 0, start, EMPTY)?;
        }
    }
    Ok(())
}

#[test]
fn short_texts(rt: HostRuntime) -> Result<(), Fail> {
    let texts: [(Kind, u32, u64, &str); 6] = [
        (
            Kind::Scalability,
            3,
            7,
            "heap 1024 8 0\nlane\na 0 1 2442223337\nf 0\nlane\na 0 1 414063806\nf 0\nlane\na 0 1 2743600285\nf 0\nlane\nlane\nlane\nlane\nlane\nend\n",
        ),
        (
            Kind::Scalability,
            10,
            3,
            "heap 1024 8 0\nlane\na 0 1 1170342731\nf 0\na 0 1 636832815\nf 0\nlane\na 0 1 4217149081\nf 0\na 0 1 757380062\nf 0\nlane\na 0 1 361647185\nf 0\nlane\na 0 1 721287141\nf 0\nlane\na 0 1 3995479478\nf 0\nlane\na 0 1 3298735423\nf 0\nlane\na 0 1 2255140568\nf 0\nlane\na 0 1 1042523632\nf 0\nend\n",
        ),
        (
            Kind::Threadtest,
            10,
            18_446_744_073_709_551_615,
            "heap 1024 8 0\nlane\na 0 7 2553256318\na 1 7 1362994822\nc 0\nf 0\nc 1\nf 1\nlane\na 0 7 3759657484\na 1 7 3366838333\nc 0\nf 0\nc 1\nf 1\nlane\na 0 7 2323195082\nc 0\nf 0\nlane\na 0 7 1040808896\nc 0\nf 0\nlane\na 0 7 1763830589\nc 0\nf 0\nlane\na 0 7 975353581\nc 0\nf 0\nlane\na 0 7 2866471994\nc 0\nf 0\nlane\na 0 7 2106911640\nc 0\nf 0\nend\n",
        ),
        (
            Kind::Larson,
            10,
            0,
            "heap 1024 8 0\nlane\na 3 60 336081875\na 62 43 1616833669\nf 3\nf 62\nlane\na 14 56 56572352\na 62 50 116872860\nf 14\nf 62\nlane\na 37 39 1017583790\nf 37\nlane\na 33 5 450705938\nf 33\nlane\na 35 29 1950789135\nf 35\nlane\na 44 61 3428145879\nf 44\nlane\na 36 13 2939988025\nf 36\nlane\na 2 59 3187628890\nf 2\nend\n",
        ),
        (
            Kind::Pipeline,
            3,
            18_446_744_073_709_551_615,
            "heap 1024 8 0\nlane\na 0 3 2553256318\np 0 0\nlane\nt 0 0\nc 0\nf 0\nlane\na 0 3 1362994822\np 0 16\nlane\nlane\nlane\nlane\nlane\nend\n",
        ),
        (
            Kind::Pipeline,
            10,
            5,
            "heap 1024 8 0\nlane\na 0 3 3086511542\np 0 0\na 0 3 1342643712\np 0 1\nlane\nt 0 0\nc 0\nf 0\nt 0 1\nc 0\nf 0\nlane\na 0 3 28595221\np 0 16\nlane\nt 0 16\nc 0\nf 0\nlane\na 0 3 496592263\np 0 32\nlane\nt 0 32\nc 0\nf 0\nlane\na 0 3 2875980676\np 0 48\nlane\nt 0 48\nc 0\nf 0\nend\n",
        ),
    ];
    for (kind, size, start, want) in texts {
        is_text(&rt, kind, size, start, want)?;
    }
    Ok(())
}

#[test]
fn long_texts(rt: HostRuntime) -> Result<(), Fail> {
    let texts: [(Kind, u32, u64, usize, u32); 16] = [
        (Kind::Scalability, 517, 0, 10_758, 3_728_463_000),
        (Kind::Scalability, 517, 7, 10_781, 935_174_889),
        (
            Kind::Scalability,
            517,
            18_446_744_073_709_551_615,
            10_809,
            3_213_253_658,
        ),
        (Kind::Scalability, 1000, 3, 20_786, 1_596_650_480),
        (Kind::Threadtest, 517, 0, 14_122, 3_971_922_543),
        (Kind::Threadtest, 517, 7, 14_145, 2_444_106_288),
        (
            Kind::Threadtest,
            517,
            18_446_744_073_709_551_615,
            14_173,
            672_224_087,
        ),
        (Kind::Threadtest, 1000, 3, 27_306, 1_760_399_116),
        (Kind::Larson, 517, 0, 13_003, 3_308_767_920),
        (Kind::Larson, 517, 7, 13_014, 2_875_997_230),
        (
            Kind::Larson,
            517,
            18_446_744_073_709_551_615,
            12_993,
            2_673_960_715,
        ),
        (Kind::Larson, 1000, 3, 26_051, 1_110_764_114),
        (Kind::Pipeline, 517, 0, 9_976, 3_951_208_975),
        (Kind::Pipeline, 517, 7, 9_991, 998_841_164),
        (
            Kind::Pipeline,
            517,
            18_446_744_073_709_551_615,
            10_010,
            2_024_716_758,
        ),
        (Kind::Pipeline, 1000, 3, 19_254, 1_285_632_394),
    ];
    for (kind, size, start, length, sum) in texts {
        let text = text_of(&rt, kind, size, start)?;
        assert_eq!(rt; (text.len(), sum_of(&text)), (length, sum));
    }
    Ok(())
}

#[test]
fn a_text_is_read_again(rt: HostRuntime) -> Result<(), Fail> {
    let text = text_of(&rt, Kind::Larson, 1000, 3)?;
    is_printed(&rt, &text, &text)
}

/// How many lanes a workload of threads has, and whether each has so many operations.
fn lanes_of(alloc: Global, size: u32, operations: usize) -> Result<(usize, bool), AllocError>
    requires { size ≤ MAX_SIZE }
{
    let trace = make_trace(alloc, Kind::Threadtest, size, 7)?;
    let lanes = trace.lanes.as_slice();
    Ok((
        lanes.len(),
        lanes.iter().all(|lane| lane.len() == operations),
    ))
}

#[test]
fn operations_of_a_large_workload(rt: HostRuntime) -> Result<(), Fail> {
    assert_eq!(rt; lanes_of(rt.alloc(), 100_000, 37_500)?, (8, true));
    Ok(())
}
