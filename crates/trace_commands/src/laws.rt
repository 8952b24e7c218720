//! Laws of what the program tells, on functions that do nothing.

ghost use Rattle.std.specs.Prelude.{ℕ, ◌≡◌, List, Option};
ghost use Rattle.command_line.specs.declared.command.Piping.{Piping};
ghost use Rattle.store_runner.specs.Texts.{store_text};
ghost use Rattle.trace_commands.specs.declared.closing.Closing.{Closing};
ghost use Rattle.trace_commands.specs.Pipes.{IsPiped, text_of_messages};
ghost use Rattle.trace_commands.specs.Stored.{IsStoreTold};

use edge_io::gate::Gate;

/// What is told of a pipeline is a function of its numbers, whatever gate its messages passed and whatever its
/// threads did.
pub fn pipelines_have_one_text<G: Gate>(_gate: &G)
    ensures { (piping : Piping) (closed : Option Closing) (text : List ℕ)
        → IsPiped (G.passed _gate.now) piping closed text → text ≡ text_of_messages piping }
{}

/// What is told of a store's script is a function of its rounds.
pub fn scripts_have_one_text()
    ensures { (rounds : ℕ) (closed : Option Closing) (text : List ℕ) → IsStoreTold rounds closed text → text ≡ store_text rounds }
{}
