// Std's readers as sources.
ghost use Rattle.std.specs.Prelude.{◌≡◌, ◌≢◌, ◌<◌, ◌≤◌, ℕ, length, None};
ghost use Rattle.line_io.specs.Faults.{Rose};
ghost use Rattle.line_io.specs.Source.{CountsRead, CountsWithin, EndsAt, Gave, came};
ghost use Rattle.line_io.specs.declared.source.Got.{Got};

use crate::source::{Got, Source};
use crate::tries::try_read;
use std::io::Read;

/// A source over a reader of std. It tells no bytes. A read that a signal interrupts is tried again, up to 100 times
/// in all; each other error of the reader, and 100 interrupts on end, are one fault.
#[derive(Drop)]
pub struct StdSource<R> {
    reader: R,
    faults: u64,
}

impl<R: Read> StdSource<R> {
    /// A source over `reader`, with no fault yet.
    pub fn new(reader: R) -> StdSource<R>
        ensures { ⟦<StdSource<R> as Source>⟧.faults result ≡ 0 }
    {
        StdSource { reader, faults: 0 }
    }
}

impl<R: Read> Source for StdSource<R> {
    ghost left = { λ _. None };

    ghost faults = { λ s. s.faults };

    fn read(&mut self, buf: &mut [u8]) -> Got
        requires { 0 < length buf.old }
        ensures count { CountsWithin (length buf.new) result }
        ensures bytes { Gave None None (came result buf.new) }
        ensures end { EndsAt None result }
        ensures later { self.old.faults ≤ self.new.faults }
        ensures failed { result ≡ Got.Failed → Rose self.old.faults self.new.faults }
        ensures told { result ≢ Got.Failed → self.new.faults ≡ self.old.faults }

        // A fault is counted once, and nothing else is.
        ensures faults { CountsRead result self.old.faults self.new.faults }
    {
        match try_read(&mut self.reader, buf) {
            Some(0) => Got::End,
            Some(n) => Got::Got(n),
            None => {
                self.faults = self.faults.saturating_add(1);
                Got::Failed
            }
        }
    }
}
