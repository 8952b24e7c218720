//! Calls by a handle by which memory goes out to C, or comes home.

ghost use Rattle.std.specs.Prelude.{◌≡◌};
ghost use Rattle.balloc_c.specs.declared.refusal.Refusal.TheVariants as refusal;
ghost use Rattle.balloc_c.specs.Codes.{code_of, word_of};
ghost use Rattle.balloc_c.specs.Handled.{AllocatesBy, BringsBy, FreesBy, IsBackOf, TellsBy};
ghost use Rattle.balloc_c.specs.Lending.{AreNumbers};

use crate::handed::Handed;
use crate::handle::PassHandle;
use crate::refusal::Refusal;

/// Allocates a block of so many bytes; its memory goes out.
pub fn alloc_memory(pass: &mut PassHandle, bytes: usize, id: &mut u64) -> Handed
    ensures { AllocatesBy pass.old.held.hand bytes id.old result.code id.new result.memory result.words pass.new.held.hand }
{
    match pass.hand() {
        Some(hand) => hand.alloc_memory(bytes, id),
        None => Handed::none(Refusal::Closed.word()),
    }
}

/// Tells where the memory of a block begins.
pub fn memory(pass: &mut PassHandle, id: u64) -> Handed
    ensures { TellsBy pass.old.held.hand id result.code result.memory result.words pass.new.held.hand }
{
    match pass.hand() {
        Some(hand) => hand.memory(id),
        None => Handed::none(Refusal::Closed.word()),
    }
}

/// Frees a block; memory that is out comes back for it.
pub fn free(pass: &mut PassHandle, id: u64, back: Handed) -> Handed
    requires { IsBackOf pass.old.held.hand id back.words × (back.code ≡ word_of (code_of refusal.InCall)) }
    ensures { FreesBy pass.old.held.hand id back.words result.code result.words pass.new.held.hand }
{
    match pass.hand() {
        Some(hand) => hand.free(id, back),
        None => Handed::none(Refusal::Closed.word()),
    }
}

/// Brings the memory of a block home.
pub fn bring(pass: &mut PassHandle, id: u64, back: Handed) -> Handed
    requires { IsBackOf pass.old.held.hand id back.words × AreNumbers back.words × (back.code ≡ word_of (code_of refusal.InCall)) }
    ensures { BringsBy pass.old.held.hand id back.words result.code result.words pass.new.held.hand }
{
    match pass.hand() {
        Some(hand) => hand.bring(id, back),
        None => Handed::none(Refusal::Closed.word()),
    }
}
