//! Reading the whole input.

ghost use Rattle.std.specs.Prelude.{ℕ, List, IfOk, IsErrOf};
ghost use Rattle.edge_io.specs.Faults.{FaultsRose};
ghost use Rattle.command_line.specs.Input.{TakesAll, TakesFirst, TakesMore, TakesSome};

use crate::stop::Stop;
use edge_io::source::Source;
use std::alloc::Global;

/// The bytes that each read is offered room for.
pub const BUFFER_BYTES: usize = 4096;

/// Reads until the source ends, or until more than `most` bytes were taken: at most `most + 1` reads.
pub fn read_input<S: Source>(alloc: Global, source: &mut S, most: usize) -> Result<Vec<u8>, Stop>
    ensures whole { IfOk result (λ bytes. TakesAll S.left S.gave most source.old source.new bytes.items) }
    ensures many { IsErrOf result Stop.TooMany → TakesMore S.left S.gave most source.old source.new }
    ensures fault { IsErrOf result Stop.Fault → FaultsRose (S.faults source.old) (S.faults source.new)
        × TakesSome S.left S.gave most source.old source.new }
    ensures memory { IsErrOf result Stop.OutOfMemory
        → (counts : List ℕ) × TakesFirst S.gave most source.old counts source.new }
{
    let mut bytes = Vec::new(alloc);
    let mut buffer = [0; BUFFER_BYTES];
    while bytes.len() <= most {
        let Ok(count) = source.read(&mut buffer) else {
            return Err(Stop::Fault);
        };
        if count == 0 {
            return Ok(bytes);
        }
        let Ok(()) = bytes.extend_from_slice(&buffer[..count]) else {
            return Err(Stop::OutOfMemory);
        };
    }
    Err(Stop::TooMany)
}
