// A whole script served, from a source to a sink.
ghost use Rattle.std.specs.Prelude.{◌≡◌, ℕ, ◌+◌, ◌<◌, ◌≤◌, List, Option, length};
ghost use Rattle.line_io.specs.Reader.{IsFaulted, lines_left, limits_of};
ghost use Rattle.plain_machine.specs.State.{State};
ghost use Rattle.space_api.specs.Calls.{most_calls};
ghost use Rattle.engine.specs.Acts.{StandsWith, leaving};
ghost use Rattle.engine.specs.Serving.{Going, IsNew, Served, TellsRead, TurnTellsRead, Turns, turn_of};

use crate::machine::{Machine, Stepped, refuse_long, step};
use line_io::{LineGot, LineReader, Sink, Source};
use space_api::Space;

/// How a whole script ended.
#[derive(Clone, Copy)]
pub enum Status {
    Done,
    Usage,
    ReadFault,
    WriteFault,
    Memory,
    TooMuch,
}

/// Whether a turn is the last.
#[derive(Clone, Copy)]
enum Turn {
    On,
    Stop(Status),
}

/// What a step makes of a turn.
fn after(stepped: Stepped) -> Turn
    ensures { result ≡ turn_of stepped }
{
    match stepped {
        Stepped::Next => Turn::On,
        Stepped::Quit => Turn::Stop(Status::Done),
        Stepped::SinkFault => Turn::Stop(Status::WriteFault),
    }
}

/// Reads a line, does it and answers it.
fn take_turn<S: Space, T: Source, K: Sink>(
    m: &mut Machine<S>,
    reader: &mut LineReader,
    source: &mut T,
    sink: &mut K,
) -> Turn
    requires calls { S.calls m.old.space + lines_left reader.old ≤ most_calls }
    requires named { S.named m.old.space ≤ length m.old.names }
    requires no_fault { IsFaulted reader.old → ⊥ }
    ensures turns { (first : State) (left : Option (List ℕ)) (start : K)
        → Going (record { words = S.words m.old.space; first = first; limits = limits_of reader.old })
        (record { before = left; after = T.left source.old })
        (record { wrote = K.wrote; faults = K.faults; before = start; after = sink.old })
        reader.old (leaving (S.stands m.old.space) (S.text m.old.space) m.old.names)
        → Turns result (record { words = S.words m.old.space; first = first; limits = limits_of reader.old })
        (record { before = left; after = T.left source.new })
        (record { wrote = K.wrote; faults = K.faults; before = start; after = sink.new })
        reader.new (leaving (S.stands m.new.space) (S.text m.new.space) m.new.names) }
    ensures told { TurnTellsRead result (T.faults source.old) (T.faults source.new) }
    ensures read_later { T.faults source.old ≤ T.faults source.new }
    ensures going { result ≡ Turn.On → (IsFaulted reader.new → ⊥) × (lines_left reader.new < lines_left reader.old) }
    ensures words { S.words m.new.space ≡ S.words m.old.space }
    ensures calls { S.calls m.new.space + lines_left reader.new ≤ S.calls m.old.space + lines_left reader.old }
    ensures named { S.named m.new.space ≤ length m.new.names }
    ensures limits { limits_of reader.new ≡ limits_of reader.old }
{
    match reader.next(source) {
        LineGot::Line => after(step(m, reader.line(), sink)),
        LineGot::Long => after(refuse_long(m, sink)),
        LineGot::End => Turn::Stop(Status::Done),
        LineGot::Fault => Turn::Stop(Status::ReadFault),
        LineGot::TooMuch => Turn::Stop(Status::TooMuch),
    }
}

/// Serves a source: does each of its lines in order and writes the replies, to the end of the
/// source or an accepted `sys quit`.
///
/// The reader is new. The answer is never `Usage` or `Memory`.
pub fn serve<S: Space, T: Source, K: Sink>(
    m: &mut Machine<S>,
    reader: &mut LineReader,
    source: &mut T,
    sink: &mut K,
) -> Status
    requires new { IsNew reader.old }
    requires calls { S.calls m.old.space + (limits_of reader.old).lines ≤ most_calls }
    requires named { S.named m.old.space ≤ length m.old.names }
    ensures served { (first : State) → StandsWith (S.stands m.old.space) m.old.names first
        → Served (record { words = S.words m.old.space; first = first; limits = limits_of reader.old })
        (record { before = T.left source.old; after = T.left source.new })
        (record { wrote = K.wrote; faults = K.faults; before = sink.old; after = sink.new })
        (leaving (S.stands m.new.space) (S.text m.new.space) m.new.names) result }
    ensures told { TellsRead result (T.faults source.old) (T.faults source.new) }
    ensures read_later { T.faults source.old ≤ T.faults source.new }
    ensures words { S.words m.new.space ≡ S.words m.old.space }
    // The count of calls rises by one a line at most, so another script or another line can follow.
    ensures calls { S.calls m.new.space + lines_left reader.new ≤ S.calls m.old.space + (limits_of reader.old).lines }
    ensures named { S.named m.new.space ≤ length m.new.names }
{
    loop {
        if let Turn::Stop(status) = take_turn(m, reader, source, sink) {
            return status;
        }
    }
}
