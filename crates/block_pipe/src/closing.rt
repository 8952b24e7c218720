//! How a pipe closes.

ghost use Rattle.std.specs.Prelude.{IfOk};
ghost use Rattle.std.specs.Result.{IfErr};
ghost use Rattle.block_pipe.specs.Ends.{AreAllEnds};
ghost use Rattle.block_pipe.specs.Logs.{HasLogged};

use crate::log::PipeLog;
use crate::pipe::Pipe;
use crate::receiver::Receiver;
use crate::rule::{TakesOver, TellsNote};
use crate::sender::Sender;
use crate::tally::PerSender;
use std::alloc::Global;
use std::sync::Wait;

/// What is refused where there is no memory for closing: nothing has changed.
#[derive(Drop)]
pub struct PipeRefused {
    pub pipe: Pipe,
    pub senders: Vec<Sender>,
    pub receiver: Receiver,
}

impl Pipe {
    /// Takes all ends in, and says how many notes each sender pushed and the receiver popped of it: what was
    /// popped of a sender is the first part of what that pushed. It takes no memory, so it always closes.
    pub fn close<R: Wait>(
        self,
        _rt: &R,
        _alloc: Global,
        senders: Vec<Sender>,
        receiver: Receiver,
    ) -> Result<PipeLog, PipeRefused>
        requires { AreAllEnds self senders.items receiver }
        ensures log { IfOk result (λ log. HasLogged self senders.items receiver log) }
        ensures always { IfErr result (λ refused. ⊥) }
    {
        Ok(self.gather(senders, receiver))
    }

    /// Takes the senders into the receiver's end, one after the other, and writes down what each has sent.
    fn gather(&self, mut senders: Vec<Sender>, receiver: Receiver) -> PipeLog
        requires { AreAllEnds self.now senders.items receiver }
        ensures { HasLogged self.now senders.items receiver result }
    {
        let Receiver {
            mut end,
            kept: _,
            popped,
        } = receiver;
        let mut sent = PerSender::new();
        while let Some(sender) = senders.pop() {
            sent.set(sender.number, sender.sent);
            self.queue.absorb::<TakesOver>(&mut end, sender.end);
            self.queue.learn_as::<TellsNote>(&mut end);
        }
        PipeLog {
            sent,
            taken: popped,
        }
    }
}
