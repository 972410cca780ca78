// Std's writers as sinks.
ghost use Rattle.std.specs.Prelude.{◌≡◌, ◌≢◌, ◌<◌, ◌≤◌, ◌++◌, ℕ, List, length};
ghost use Rattle.line_io.specs.Faults.{Rose};
ghost use Rattle.line_io.specs.Sink.{CountsWrite, Grew, TakesWithin, went};
ghost use Rattle.line_io.specs.declared.sink.Took.{Took};

use crate::sink::{Sink, Took};
use crate::tries::{try_flush, try_write};
use std::io::Write;

/// A sink over a writer of std, flushed after each write. It tells no bytes, so each list may have been written. It
/// takes as many bytes at once as the writer does. A write or a flush that a signal interrupts is tried again, up to
/// 100 times in all; each other error, 100 interrupts on end, and a write of 0 bytes are one fault.
#[derive(Drop)]
pub struct StdSink<W> {
    writer: W,
    faults: u64,
}

impl<W: Write> StdSink<W> {
    /// A sink over `writer`, with no fault yet.
    pub fn new(writer: W) -> StdSink<W>
        ensures { ⟦<StdSink<W> as Sink>⟧.faults result ≡ 0 }
    {
        StdSink { writer, faults: 0 }
    }

    // Writes and flushes once, and answers how many bytes went, 0 for a fault.
    fn write_through(&mut self, bytes: &[u8]) -> usize
        ensures bound { result ≤ length bytes.now }
        ensures faults { self.new.faults ≡ self.old.faults }
    {
        let Some(n) = try_write(&mut self.writer, bytes) else {
            return 0;
        };
        if try_flush(&mut self.writer) {
            return n;
        }
        0
    }
}

impl<W: Write> Sink for StdSink<W> {
    ghost wrote = { λ _ _. Unit {0} };

    ghost faults = { λ s. s.faults };

    fn write(&mut self, bytes: &[u8]) -> Took
        requires { 0 < length bytes.now }
        ensures count { TakesWithin (length bytes.now) result }
        ensures grew { Grew ⟦<StdSink<W> as Sink>⟧.wrote self.old self.new (went result bytes.now) }
        ensures later { self.old.faults ≤ self.new.faults }
        ensures failed { result ≡ Took.Failed → Rose self.old.faults self.new.faults }
        ensures told { result ≢ Took.Failed → self.new.faults ≡ self.old.faults }

        // A fault is counted once, and nothing else is.
        ensures faults { CountsWrite result self.old.faults self.new.faults }
    {
        let n = self.write_through(bytes);
        if n == 0 {
            self.faults = self.faults.saturating_add(1);
            return Took::Failed;
        }
        Took::Took(n)
    }
}
