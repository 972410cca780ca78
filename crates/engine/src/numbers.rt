// The numbers of the processes that live, as a line.
ghost use Rattle.plain_machine.specs.State.{State};
ghost use Rattle.plain_machine.specs.Step.{procs_text};
ghost use Rattle.line_io.specs.Sink.{WritesTold};
ghost use Rattle.engine.specs.Writing.{end_of_line};

use line_io::{Sink, SinkFault};
use reply_text::put_number;
use space_api::Space;
use text_parts::put;

/// Writes the line of all live numbers.
pub(crate) fn put_numbers<S: Space, K: Sink>(space: &S, sink: &mut K) -> Result<(), SinkFault>
    ensures { (s : State) → S.stands space.now s → WritesTold K.wrote K.faults sink.old sink.new (end_of_line (procs_text s)) result }
{
    put(sink, b"[")?;
    let mut last = 0;
    while let Some(n) = space.live_after(last) {
        put_number(last == 0, n, sink)?;
        last = n;
    }
    put(sink, b"]\n")
}
