//! Who is told of each operation before it begins.

ghost use Rattle.std.specs.Prelude.{ℕ};

/// A gate that each operation of a lane passes before it begins. Threads may share one.
pub trait Gate {
    /// The lane passed before its operation `op`: told by `pass` alone.
    ghost passed: { Self → ℕ → ℕ → Type 0 };

    /// Called before the lane's operation `op`, counted from 0. It may take its time.
    fn pass(&self, lane: u32, op: u32)
        ensures { passed self.now lane op };
}

/// A gate that does nothing.
#[derive(Clone, Copy, Debug, PartialEq, Eq)]
pub struct NoGate;

impl Gate for NoGate {
    ghost use Rattle.std.specs.Prelude.{⊤};

    ghost passed = { λ _ _ _. ⊤ };

    fn pass(&self, _lane: u32, _op: u32) {}
}
