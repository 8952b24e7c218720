//! A source and a sink in memory, which fail where they are told to.

ghost use Rattle.std.specs.Prelude.{◌≡◌, ◌-◌, ◌<◌, ◌≤◌, ◌↔◌, ◌⊎◌, [], ◌++◌, min, length, take, IfOk, IsErr, OnErr};
ghost use Rattle.edge_io.specs.Calls.{IsListed, new_plan, plan_after};
ghost use Rattle.edge_io.specs.Faults.{FaultsRose};

use crate::calls::Calls;
use crate::faults::Failed;
use crate::sink::Sink;
use crate::source::Source;
use crate::steady::SteadySource;
use std::alloc::{AllocError, Global};
use std::marker::Model;

/// A source in memory, which gives some bytes a call and fails the calls that are listed.
#[derive(Drop)]
pub struct MemorySource {
    steady: SteadySource,
    calls: Calls,
}

impl Model for MemorySource {
    ghost use Rattle.edge_io.specs.Memory.{MemoryInput};

    ghost Value = { MemoryInput };

    ghost view = { λ s. record { left = s.steady; calls = s.calls } };
}

impl MemorySource {
    /// A source of these bytes, which gives at most `chunk` of them a call. The calls whose numbers are
    /// listed fail, counted from 1 up to `LAST_COUNT`.
    pub fn new(bytes: Vec<u8>, chunk: usize, failing: Vec<u64>) -> MemorySource
        requires { 0 < chunk }
        ensures left { result.left ≡ bytes.items }
        ensures calls { result.calls ≡ new_plan chunk failing.items }
    {
        MemorySource {
            steady: SteadySource::new(bytes),
            calls: Calls::new(chunk, failing),
        }
    }
}

impl Source for MemorySource {
    ghost use Rattle.std.specs.Prelude.{Some};
    ghost use Rattle.edge_io.specs.Memory.{MemoryGave};

    ghost left = { λ s. Some s.left };

    ghost faults = { λ s. s.calls.faults };

    ghost gave = { MemoryGave };

    fn read(&mut self, buf: &mut [u8]) -> Result<usize, Failed>
        ensures fails { IsErr result ↔ IsListed self.old.calls }
        ensures count { IfOk result (λ n.
            n ≡ min (length self.old.left) (min (length buf.old) self.old.calls.chunk)) }
        ensures calls { self.new.calls ≡ plan_after self.old.calls result }

        ensures within { IfOk result (λ n. n ≤ length buf.new) }
        ensures given { IfOk result (λ n. self.old.left ≡ take n buf.new ++ self.new.left) }
        ensures end { 0 < length buf.old → IfOk result (λ n. (n ≡ 0) ↔ (self.old.left ≡ [])) }
        ensures kept { OnErr result (self.new.left ≡ self.old.left) }
        ensures never_falls { self.old.calls.faults ≤ self.new.calls.faults }
        ensures cause { OnErr result (FaultsRose self.old.calls.faults self.new.calls.faults) }
    {
        self.calls.next_call(false)?;
        let most = buf.len().min(self.calls.chunk());
        self.steady.read(&mut buf[..most])
    }
}

/// A sink in memory, which takes some bytes a call, fails the calls that are listed, and has room for
/// so many bytes.
#[derive(Drop)]
pub struct MemorySink {
    bytes: Vec<u8>,
    room: usize,
    calls: Calls,
}

impl Model for MemorySink {
    ghost use Rattle.std.specs.Prelude.{◌≤◌, vec_capacity, vec_len};
    ghost use Rattle.edge_io.specs.Memory.{MemoryOutput};

    ghost Value = { MemoryOutput };

    ghost view = { λ s. record { holds = s.bytes.items; room = s.room; calls = s.calls } };

    ghost invariant = { λ s. (vec_len s.bytes ≤ s.room) × (s.room ≤ vec_capacity s.bytes) };
}

impl MemorySink {
    /// A sink with room for `room` bytes, which takes at most `chunk` of them a call. The calls whose
    /// numbers are listed fail, counted from 1 up to `LAST_COUNT`, and so do those made when the room
    /// is used up. Only this call takes memory.
    pub fn new(
        alloc: Global,
        room: usize,
        chunk: usize,
        failing: Vec<u64>,
    ) -> Result<MemorySink, AllocError>
        requires { 0 < chunk }
        ensures holds { IfOk result (λ sink. sink.holds ≡ []) }
        ensures room { IfOk result (λ sink. sink.room ≡ room) }
        ensures calls { IfOk result (λ sink. sink.calls ≡ new_plan chunk failing.items) }
    {
        Ok(MemorySink {
            bytes: Vec::with_capacity(alloc, room)?,
            room,
            calls: Calls::new(chunk, failing),
        })
    }

    /// The bytes taken so far.
    pub fn bytes(&self) -> &[u8]
        ensures value { result.now ≡ self.now.holds }
        ensures within { length result.now ≤ self.now.room }
    {
        &self.bytes
    }
}

impl Sink for MemorySink {
    ghost use Rattle.std.specs.Prelude.{Some};
    ghost use Rattle.edge_io.specs.Memory.{MemoryWrote};

    ghost holds = { λ s. Some s.holds };

    ghost faults = { λ s. s.calls.faults };

    ghost wrote = { MemoryWrote };

    fn write(&mut self, piece: &[u8]) -> Result<usize, Failed>
        ensures fails { IsErr result ↔ ((length self.old.holds ≡ self.old.room) ⊎ IsListed self.old.calls) }
        ensures count { IfOk result (λ n. n ≡
            min (min (length piece.now) self.old.calls.chunk) (self.old.room - length self.old.holds)) }
        ensures room { self.new.room ≡ self.old.room }
        ensures calls { self.new.calls ≡ plan_after self.old.calls result }

        ensures within { IfOk result (λ n. n ≤ length piece.now) }
        ensures progress { 0 < length piece.now → IfOk result (λ n. 0 < n) }
        ensures taken { IfOk result (λ n. self.new.holds ≡ self.old.holds ++ take n piece.now) }
        ensures kept { OnErr result (self.new.holds ≡ self.old.holds) }
        ensures never_falls { self.old.calls.faults ≤ self.new.calls.faults }
        ensures cause { OnErr result (FaultsRose self.old.calls.faults self.new.calls.faults) }
    {
        let spare = self.room - self.bytes.len();
        self.calls.next_call(spare == 0)?;
        let n = piece.len().min(self.calls.chunk()).min(spare);
        // `new` took the memory for these bytes.
        self.bytes.extend_from_slice(&piece[..n]).unwrap();
        Ok(n)
    }
}
