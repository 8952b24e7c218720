//! The codes that C gets.

ghost use Rattle.std.specs.Prelude.{◌≡◌, IfOk, Ok};
ghost use Rattle.std.specs.Result.{IfErr};
ghost use Rattle.balloc_malloc.specs.Codes.{GivesNone, code_of};

use live_heap::answers::AllocAnswer;
use memory_cache::piece::Piece;
use std::alloc::AllocError;

/// The call was made, and told no memory.
pub const DONE: u32 = 0;

/// A code below this, of a call that tells memory, is how many words that has; all that tell a cause are above.
pub const CAUSES: u32 = 1_048_576;

/// The heap has no block left for so many bytes.
pub const REFUSED: u32 = 1_048_577;

/// No block has so many bytes.
pub const TOO_LARGE: u32 = 1_048_578;

/// The pass has taken all its turns.
pub const SPENT: u32 = 1_048_579;

/// A call of the heap is under way that doesn't end within the tries.
pub const BUSY: u32 = 1_048_580;

/// The seat has no pass.
pub const EMPTY: u32 = 1_048_581;

/// A number of the heap is out of its range, or a seat has a pass already.
pub const BAD_NUMBERS: u32 = 1_048_582;

/// There is no memory for the heap, or for a page of it.
pub const NO_MEMORY: u32 = 1_048_583;

/// What a cache answers: a piece, or the code that tells why there is none.
#[inline(always)]
pub fn piece_or_cause(told: Result<AllocAnswer<Piece>, AllocError>) -> Result<Piece, u32>
    ensures piece { IfOk result (λ piece. told ≡ Ok (AllocAnswer.Given piece)) }
    ensures cause { IfErr result (λ code. (code ≡ code_of told) × GivesNone told) }
{
    match told {
        Ok(AllocAnswer::Given(piece)) => Ok(piece),
        Ok(AllocAnswer::Refused) => Err(REFUSED),
        Ok(AllocAnswer::TooLarge) => Err(TOO_LARGE),
        Ok(AllocAnswer::Spent) => Err(SPENT),
        Ok(AllocAnswer::Busy) => Err(BUSY),
        Err(_) => Err(NO_MEMORY),
    }
}
