// Where bytes go.
ghost use Rattle.std.specs.Prelude.{◌≡◌, ◌≢◌, ℕ, ◌<◌, ◌≤◌, List, length, take, OnOk, OnErr};
ghost use Rattle.line_io.specs.declared.sink.Took.{Took};
ghost use Rattle.line_io.specs.Faults.{Rose};
ghost use Rattle.line_io.specs.Sink.{Grew, GrewInPart, TakesWithin, went};

use thiserror::Error;

/// What a write did: it took a number of bytes off the front, or failed.
#[derive(Clone, Copy)]
pub enum Took {
    Took(usize),
    Failed,
}

/// A sink of bytes (this project).
pub trait Sink {
    /// A list of bytes that may have been written so far.
    ghost wrote: { Self → List ℕ → Type 0 };

    /// How often writing has failed; it never falls.
    ghost faults: { Self → ℕ };

    /// Takes some bytes, at least one, from the front of `bytes`.
    fn write(&mut self, bytes: &[u8]) -> Took
        requires { 0 < length bytes.now }
        ensures count { TakesWithin (length bytes.now) result }
        ensures grew { Grew wrote self.old self.new (went result bytes.now) }
        ensures later { faults self.old ≤ faults self.new }
        ensures failed { result ≡ Took.Failed → Rose (faults self.old) (faults self.new) }
        ensures told { result ≢ Took.Failed → faults self.new ≡ faults self.old };
}

/// A sink failed before it had taken all that it was given.
#[derive(Debug, Drop, Error)]
#[error("a write failed")]
pub struct SinkFault;

/// Writes all of `bytes`, by as many calls as the sink wants. It stops at the first fault.
pub fn put_all<K: Sink>(sink: &mut K, bytes: &[u8]) -> Result<(), SinkFault>
    ensures all { OnOk result (Grew K.wrote sink.old sink.new bytes.now) }
    ensures part { OnErr result (GrewInPart K.wrote sink.old sink.new bytes.now) }
    ensures later { K.faults sink.old ≤ K.faults sink.new }
    ensures rose { OnErr result (Rose (K.faults sink.old) (K.faults sink.new)) }
    ensures told { OnOk result (K.faults sink.new ≡ K.faults sink.old) }
{
    if put_most(sink, bytes) < bytes.len() {
        return Err(SinkFault);
    }
    Ok(())
}

// Writes `bytes` up to the first fault, and says how many of them went.
pub fn put_most<K: Sink>(sink: &mut K, bytes: &[u8]) -> usize
    ensures most { result ≤ length bytes.now }
    ensures grew { Grew K.wrote sink.old sink.new (take result bytes.now) }
    ensures later { K.faults sink.old ≤ K.faults sink.new }
    ensures rose { result < length bytes.now → Rose (K.faults sink.old) (K.faults sink.new) }
    ensures told { length bytes.now ≤ result → K.faults sink.new ≡ K.faults sink.old }
{
    let mut at = 0;
    while at < bytes.len() {
        match sink.write(&bytes[at..]) {
            Took::Took(n) => at += n,
            Took::Failed => return at,
        }
    }
    at
}
