//! Where the program's bytes go.

ghost use Rattle.std.specs.Prelude.{List, ℕ, Option, Result, ◌<◌, ◌≤◌, length, take, IfOk, OnErr};
ghost use Rattle.std.specs.Io.KnownBytes.{Appends, Keeps};
ghost use Rattle.edge_io.specs.Faults.{FaultsRose};
ghost use Rattle.edge_io.specs.declared.faults.Failed.{Failed};

use crate::faults::Failed;

/// A place that bytes are written to.
pub trait Sink {
    /// The bytes taken so far, where the sink tells them.
    ghost holds: { Self → Option (List ℕ) };

    /// How often the sink has failed. The count stands still at `LAST_COUNT`.
    ghost faults: { Self → ℕ };

    /// One write of a piece, with its answer, leads from one state to the next.
    ghost wrote: { Self → List ℕ → Result ℕ Failed → Self → Type 0 };

    /// Takes bytes from the front of the piece, at least one of a piece that isn't empty, and answers
    /// how many.
    fn write(&mut self, piece: &[u8]) -> Result<usize, Failed>
        ensures within { IfOk result (λ n. n ≤ length piece.now) }
        ensures progress { 0 < length piece.now → IfOk result (λ n. 0 < n) }

        // Where the bytes are told, they grow by those that were taken.
        ensures taken { IfOk result (λ n. Appends (holds self.old) (holds self.new) (take n piece.now)) }
        ensures kept { OnErr result (Keeps (holds self.old) (holds self.new)) }

        ensures made { wrote self.old piece.now result self.new }

        ensures never_falls { faults self.old ≤ faults self.new }
        ensures cause { OnErr result (FaultsRose (faults self.old) (faults self.new)) };
}
