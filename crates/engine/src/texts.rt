// Numbers in lines, and the texts of refusals.
ghost use Rattle.std.specs.Prelude.{◌≡◌, ◌++◌, decimal, IfSome};
ghost use Rattle.plain_machine.specs.Run.{refusal_text};
ghost use Rattle.line_io.specs.Sink.{WritesTold};
ghost use Rattle.engine.specs.Writing.{refusal_front, end_of_line};

use itoa::Buffer;
use line_io::{Sink, SinkFault};
use plain_machine::Refusal;
use text_parts::{put, put_three};

/// Writes a text, a number in decimal and the end of their line.
pub(crate) fn put_counted<K: Sink>(text: &[u8], n: u64, sink: &mut K) -> Result<(), SinkFault>
    ensures { WritesTold K.wrote K.faults sink.old sink.new (end_of_line (text.now ++ decimal n)) result }
{
    let mut number = Buffer::new();
    put_three(sink, text, number.format(n).as_bytes(), b"\n")
}

/// The line that answers a refusal, up to its number where it has one.
fn front_of(refusal: Refusal) -> &'static [u8]
    ensures { result.now ≡ refusal_front refusal }
{
    match refusal {
        Refusal::NoProc => b"error noproc\n",
        Refusal::BadArg => b"error badarg\n",
        Refusal::Empty => b"error empty\n",
        Refusal::Big => b"error big\n",
        Refusal::NoSpace(_) => b"error nospace ",
        Refusal::NoArea => b"error noarea\n",
        Refusal::AreaThere => b"error areathere\n",
        Refusal::MapSize => b"error mapsize\n",
        Refusal::Procs => b"error procs\n",
        Refusal::Atoms => b"error atoms\n",
        Refusal::Syntax => b"error syntax\n",
        Refusal::Long => b"error long\n",
    }
}

/// The whole line that answers a refusal without a number.
pub(crate) fn constant_line(refusal: Refusal) -> Option<&'static [u8]>
    ensures { IfSome result (λ t. t.now ≡ end_of_line (refusal_text refusal)) }
{
    if let Refusal::NoSpace(_) = refusal {
        return None;
    }
    Some(front_of(refusal))
}

/// Writes the line that answers a refusal. One without a number takes one write.
pub(crate) fn put_refusal<K: Sink>(refusal: Refusal, sink: &mut K) -> Result<(), SinkFault>
    ensures { WritesTold K.wrote K.faults sink.old sink.new (end_of_line (refusal_text refusal)) result }
{
    let front = front_of(refusal);
    if let Refusal::NoSpace(n) = refusal {
        return put_counted(front, n, sink);
    }
    put(sink, front)
}
