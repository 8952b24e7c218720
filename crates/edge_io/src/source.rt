//! Where the program's bytes come from.

ghost use Rattle.std.specs.Prelude.{List, ℕ, Option, Result, ◌<◌, ◌≤◌, length, take, IfOk, OnErr};
ghost use Rattle.std.specs.Io.KnownBytes.{Consumes, Keeps};
ghost use Rattle.edge_io.specs.Faults.{FaultsRose};
ghost use Rattle.edge_io.specs.Source.{IsZeroAtEnd};
ghost use Rattle.edge_io.specs.declared.faults.Failed.{Failed};

use crate::faults::Failed;

/// A place that bytes are read from.
pub trait Source {
    /// The bytes not yet read, where the source tells them.
    ghost left: { Self → Option (List ℕ) };

    /// How often the source has failed. The count stands still at `LAST_COUNT`.
    ghost faults: { Self → ℕ };

    /// One read into a buffer of so many bytes, with its answer, leads from one state to the next.
    ghost gave: { Self → ℕ → Result ℕ Failed → Self → Type 0 };

    /// Puts bytes at the front of the buffer, and answers how many: for a buffer that isn't empty, 0
    /// is the end. What stands behind them in the buffer is not said.
    fn read(&mut self, buf: &mut [u8]) -> Result<usize, Failed>
        ensures within { IfOk result (λ n. n ≤ length buf.new) }

        // Where the bytes are told, the first ones go into the buffer and the others are left.
        ensures given { IfOk result (λ n. Consumes (left self.old) (left self.new) (take n buf.new)) }
        ensures end { 0 < length buf.old → IfOk result (IsZeroAtEnd (left self.old)) }
        ensures kept { OnErr result (Keeps (left self.old) (left self.new)) }

        ensures made { gave self.old (length buf.old) result self.new }

        ensures never_falls { faults self.old ≤ faults self.new }
        ensures cause { OnErr result (FaultsRose (faults self.old) (faults self.new)) };
}
