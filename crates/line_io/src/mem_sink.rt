// A sink over memory, which takes small pieces and fails where it is told to.
ghost use Rattle.std.specs.Prelude.{◌≡◌, ◌≢◌, ℕ, if◌then◌else◌, min, ◌-◌, ◌+◌, ◌<◌, ◌≤◌, ◌^◌, List, [], ◌++◌, length, take, IfOk, vec_len};
ghost use Rattle.line_io.specs.Faults.{Rose};
ghost use Rattle.line_io.specs.Sink.{CountsWrite, Grew, TakesWithin, went};
ghost use Rattle.line_io.specs.declared.sink.Took.{Took};

use crate::copies::put_at;
use crate::fault::OpenFault;
use crate::sink::{Sink, Took};
use std::alloc::Global;

/// A sink for tests. It takes at most `piece` bytes at once, and fails at the calls that are numbered in `failing`
/// and where its room is used up.
#[derive(Drop)]
pub struct MemSink {
    buf: Vec<u8>,
    len: usize,
    piece: usize,
    failing: Vec<u64>,
    calls: u64,
    faults: u64,
    ghost within: { len ≤ vec_len buf },
    ghost takes: { 0 < piece },
}

impl MemSink {
    ghost use Rattle.line_io.specs.Memory.{bytes_taken, fails_at, next_write, sink_room, write_piece, failing_writes};

    /// A sink with memory for `room` bytes, which is all that it takes. The numbers in `failing` count calls from 1.
    pub fn new(
        alloc: Global,
        room: usize,
        piece: usize,
        failing: &[u64],
    ) -> Result<MemSink, OpenFault>
        requires { 0 < piece }
        ensures empty { IfOk result (λ s. ⟦<MemSink as Sink>⟧.wrote s []) }
        ensures taken { IfOk result (λ s. bytes_taken s ≡ []) }
        ensures room { IfOk result (λ s. sink_room s ≡ room) }
        ensures piece { IfOk result (λ s. write_piece s ≡ piece) }
        ensures failing { IfOk result (λ s. failing_writes s ≡ failing.now) }
        ensures first { IfOk result (λ s. next_write s ≡ 1) }
        ensures faults { IfOk result (λ s. ⟦<MemSink as Sink>⟧.faults s ≡ 0) }
    {
        let mut buf = Vec::new(alloc);
        let Ok(()) = buf.resize(room, 0) else {
            return Err(OpenFault::Memory);
        };
        let Ok(failing) = Vec::from_slice(alloc, failing) else {
            return Err(OpenFault::Memory);
        };
        Ok(MemSink {
            buf,
            len: 0,
            piece,
            failing,
            calls: 0,
            faults: 0,
        })
    }

    /// The bytes that were taken so far.
    pub fn bytes(&self) -> &[u8]
        ensures taken { result.now ≡ bytes_taken self.now }
        ensures wrote { ⟦<MemSink as Sink>⟧.wrote self.now result.now }
    {
        let all = self.buf.as_slice();
        &all[..self.len]
    }

    // How many of `given` bytes are taken by the call that was counted last: none where it fails, or the room is used up.
    fn allowed(&self, given: usize) -> usize
        ensures { result ≡ (if fails_at (failing_writes self.now) self.now.calls then 0
            else min (min (sink_room self.now - self.now.len) self.now.piece) given) }
    {
        if self.failing.contains(&self.calls) {
            return 0;
        }
        (self.buf.len() - self.len).min(self.piece).min(given)
    }
}

impl Sink for MemSink {
    ghost use Rattle.line_io.specs.Memory.{bytes_taken, next_write, sink_room, write_piece, failing_writes, TakesNext};

    ghost wrote = { λ s bytes. bytes ≡ bytes_taken s };

    ghost faults = { λ s. s.faults };

    fn write(&mut self, bytes: &[u8]) -> Took
        requires { 0 < length bytes.now }
        ensures count { TakesWithin (length bytes.now) result }
        ensures grew { Grew ⟦<MemSink as Sink>⟧.wrote self.old self.new (went result bytes.now) }
        ensures later { self.old.faults ≤ self.new.faults }
        ensures failed { result ≡ Took.Failed → Rose self.old.faults self.new.faults }
        ensures told { result ≢ Took.Failed → self.new.faults ≡ self.old.faults }

        // Which answer comes, how many bytes, and what then stands.
        ensures exact { TakesNext self.old (length bytes.now) result }
        ensures taken { bytes_taken self.new ≡ bytes_taken self.old ++ went result bytes.now }
        ensures faults { CountsWrite result self.old.faults self.new.faults }
        ensures calls { self.new.calls ≡ next_write self.old }
        ensures room { sink_room self.new ≡ sink_room self.old }
        ensures piece { write_piece self.new ≡ write_piece self.old }
        ensures failing { failing_writes self.new ≡ failing_writes self.old }
    {
        self.calls = self.calls.saturating_add(1);
        let n = self.allowed(bytes.len());
        if n == 0 {
            self.faults = self.faults.saturating_add(1);
            return Took::Failed;
        }
        put_at(&mut self.buf, self.len, &bytes[..n]);
        self.len += n;
        Took::Took(n)
    }
}
