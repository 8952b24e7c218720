//! Faults of the outside, and how they are counted.

ghost use Rattle.std.specs.Prelude.{◌≡◌, ◌≤◌, OnErr};
ghost use Rattle.edge_io.specs.Faults.{FaultsRose, faults_after, next_count};

/// The last value of a count of calls or faults, at which it stands still.
pub const LAST_COUNT: u64 = u64::MAX;

/// The outside failed. No bytes went over the edge in this call, where it tells its bytes.
#[derive(Clone, Copy, Debug, PartialEq, Eq)]
pub struct Failed;

/// A count after one more.
pub(crate) fn counted(count: u64) -> u64
    ensures { result ≡ next_count count }
{
    count.saturating_add(1)
}

/// Counts the fault, where the outcome is one.
pub(crate) fn count_fault<T>(faults: &mut u64, outcome: &Result<T, Failed>)
    ensures value { faults.new ≡ faults_after faults.old outcome.now }
    ensures never_falls { faults.old ≤ faults.new }
    ensures cause { OnErr outcome.now (FaultsRose faults.old faults.new) }
{
    if outcome.is_err() {
        *faults = counted(*faults);
    }
}
