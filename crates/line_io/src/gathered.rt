// A sink in front of another, which hands many small writes on as few.
ghost use Rattle.std.specs.Prelude.{◌≡◌, ℕ, ◌-◌, ◌<◌, ◌≤◌, true, false, List, [], ◌++◌, length, take, slice_range, OnOk, OnErr};
ghost use Rattle.line_io.specs.Faults.{Rose};
ghost use Rattle.line_io.specs.Sink.{Grew, GrewInPart, TakesWithin, went};
ghost use Rattle.line_io.specs.declared.sink.Took.{Took};
ghost use Rattle.line_io.specs.declared.gathered.TheConstants.{ROOM};

use crate::copies::put_at;
use crate::sink::{Sink, SinkFault, Took, put_all, put_most};

// How many bytes are gathered before they are handed on.
const ROOM: usize = 1024;

/// A sink that gathers bytes for another one. What is gathered is handed on where the buffer is full, and by
/// `finish`; what was not handed on was not written, and is lost with the adapter (this project).
#[derive(Drop)]
pub struct Gathered<'a, K> {
    sink: &'a mut K,
    buf: [u8; ROOM],
    from: usize,
    to: usize,
    ghost in_order: { from ≤ to },
    ghost in_buffer: { to ≤ ROOM },
}

impl<'a, K: Sink> Gathered<'a, K> {
    ghost use Rattle.line_io.specs.Gathered.{HandsOn, pending};

    /// An adapter that has gathered nothing. It takes no memory.
    pub fn new(sink: &'a mut K) -> Gathered<'a, K>
        ensures same_reference { result.sink.ghost_name ≡ sink.entry.ghost_name }
        ensures sink { result.sink.now ≡ sink.old }
        ensures empty { pending result ≡ [] }
    {
        Gathered {
            sink,
            buf: [0; ROOM],
            from: 0,
            to: 0,
        }
    }

    /// Hands on all that is gathered. After a fault what was not handed on is still gathered.
    pub fn finish(&mut self) -> Result<(), SinkFault>
        ensures same_reference { self.new.sink.ghost_name ≡ self.old.sink.ghost_name }
        ensures all { OnOk result (Grew K.wrote self.old.sink.now self.new.sink.now (pending self.old)) }
        ensures part { OnErr result (GrewInPart K.wrote self.old.sink.now self.new.sink.now (pending self.old)) }
        ensures later { K.faults self.old.sink.now ≤ K.faults self.new.sink.now }
        ensures rose { OnErr result (Rose (K.faults self.old.sink.now) (K.faults self.new.sink.now)) }
        ensures told { OnOk result (K.faults self.new.sink.now ≡ K.faults self.old.sink.now) }
        ensures emptied { OnOk result (pending self.new ≡ []) }
    {
        if self.hand_on() {
            return Ok(());
        }
        Err(SinkFault)
    }

    // Hands on what is gathered, and says whether all of it went.
    fn hand_on(&mut self) -> bool
        ensures same_reference { self.new.sink.ghost_name ≡ self.old.sink.ghost_name }
        ensures handed { HandsOn K.wrote self.old self.new }
        ensures emptied { result ≡ true → self.new.to ≡ 0 }
        ensures left { result ≡ false → 0 < length (pending self.new) }
        ensures later { K.faults self.old.sink.now ≤ K.faults self.new.sink.now }
        ensures rose { result ≡ false → Rose (K.faults self.old.sink.now) (K.faults self.new.sink.now) }
        ensures told { result ≡ true → K.faults self.new.sink.now ≡ K.faults self.old.sink.now }
    {
        let out = put_part(self.sink, &self.buf, self.from, self.to);
        self.from += out;
        if self.from < self.to {
            return false;
        }
        self.from = 0;
        self.to = 0;
        true
    }

    // Gathers as much as there is room for.
    fn gather(&mut self, bytes: &[u8]) -> usize
        requires room { self.old.to < ROOM }
        requires some { 0 < length bytes.now }
        ensures some { 0 < result }
        ensures most { result ≤ length bytes.now }
        ensures sink { self.new.sink ≡ self.old.sink }
        ensures gathered { pending self.new ≡ pending self.old ++ take result bytes.now }
    {
        let n = (ROOM - self.to).min(bytes.len());
        put_at(&mut self.buf, self.to, &bytes[..n]);
        self.to += n;
        n
    }
}

impl<'a, K: Sink> Sink for Gathered<'a, K> {
    ghost use Rattle.line_io.specs.Gathered.{gathered_wrote};

    ghost wrote = { gathered_wrote K.wrote };

    ghost faults = { λ g. K.faults g.sink.now };

    fn write(&mut self, bytes: &[u8]) -> Took {
        if self.to < ROOM {
            return Took::Took(self.gather(bytes));
        }
        if self.hand_on() {
            return Took::Took(self.gather(bytes));
        }
        Took::Failed
    }
}

// Writes the bytes of `buf` from `from` to `to` up to the first fault, and says how many of them went.
fn put_part<K: Sink>(sink: &mut K, buf: &[u8], from: usize, to: usize) -> usize
    requires in_order { from ≤ to }
    requires in_buffer { to ≤ length buf.now }
    ensures most { result ≤ to - from }
    ensures grew { Grew K.wrote sink.old sink.new (take result (slice_range buf.now from to)) }
    ensures later { K.faults sink.old ≤ K.faults sink.new }
    ensures rose { result < to - from → Rose (K.faults sink.old) (K.faults sink.new) }
    ensures told { to - from ≤ result → K.faults sink.new ≡ K.faults sink.old }
{
    put_most(sink, &buf[from..to])
}
