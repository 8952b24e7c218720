//! What a run of the program leaves of its heap.

use live_heap::closed::Closed;
use pipe_runner::run::PipeRun;
use step_machine::machine::Core;

/// The heap at the end of a run, by what kept it.
#[derive(Drop)]
pub enum Closing {
    /// A machine on one thread, with the events of its steps.
    Stepped(Core),
    /// A heap that threads shared, with the events of all their steps.
    Ran(Closed),
    /// A heap that the threads of a pipeline shared, with what they pushed, popped and folded.
    Piped(PipeRun),
}
