// The text of each reply.
ghost use Rattle.std.specs.Prelude.{◌≡◌, ℕ, ◌≤◌, length, true, IfSome};
ghost use Rattle.plain_machine.specs.Maps.{IsMapOf};
ghost use Rattle.plain_machine.specs.Run.{replies_text};
ghost use Rattle.plain_machine.specs.State.{State};
ghost use Rattle.engine.specs.declared.reply.Telling.TheVariants.{Compared, Flat, Text};
ghost use Rattle.line_io.specs.Sink.{WritesTold};
ghost use Rattle.engine.specs.Replies.{AllowsMap, CanReply, Shown, is_plain, map_command, reply_lines};
ghost use Rattle.engine.specs.Writing.{compared_text, end_of_line};

use crate::numbers::put_numbers;
use crate::texts::{constant_line, put_counted, put_refusal};
use atom_names::AtomNames;
use line_io::{Sink, SinkFault};
use plain_machine::{Refusal, Reg};
use space_api::{Seat, Space, Stop};
use std::cmp::Ordering;
use text_parts::{put, put_two};

/// What is asked of two terms: whether they are equal, or how the first stands to the second.
#[derive(Clone, Copy)]
pub(crate) enum Asked {
    Equality,
    Order,
}

/// What a verb that prints tells of a process.
#[derive(Clone, Copy)]
pub(crate) enum Telling {
    /// The text of a register's term.
    Text(Reg),
    /// What is asked of two registers' terms.
    Compared(Asked, Reg, Reg),
    /// The flat size of a register's term.
    Flat(Reg),
    /// The texts of the messages that wait.
    Queue,
}

/// A map of the store.
#[derive(Clone, Copy)]
pub(crate) enum MapLine {
    /// Every counted record with its count.
    Counts,
}

/// How a line that was done is answered.
#[derive(Clone, Copy)]
pub(crate) enum Reply {
    Nothing,
    Done,
    Spawned(u64),
    Numbers,
    Map(MapLine),
    Told(Seat, Telling),
    Quit,
    Refused(Refusal),
}

/// Writes the line of a register's text. A text beyond the walk limit is refused.
fn put_text<S: Space, K: Sink>(
    space: &S,
    names: &AtomNames,
    seat: Seat,
    r: Reg,
    sink: &mut K,
) -> Result<(), SinkFault>
    requires can { CanReply S.sits S.named space.now names.now (Reply.Told seat (Text r)) }
    ensures { (s : State) → S.stands space.now s
        → WritesTold K.wrote K.faults sink.old sink.new
        (replies_text (reply_lines (Reply.Told seat (Text r)) (record { state = s; names = names.now; text = S.text space.now names.now }))) result }
{
    match space.print(names, seat, r, sink) {
        Ok(()) => put(sink, b"\n"),
        Err(Stop::Big) => put_refusal(Refusal::Big, sink),
        Err(Stop::Fault) => Err(SinkFault),
    }
}

/// The word that answers it.
fn compared_word(asked: Asked, order: Ordering) -> &'static [u8]
    ensures { result.now ≡ compared_text asked order }
{
    match asked {
        Asked::Equality => match order {
            Ordering::Equal => b"true",
            _ => b"false",
        },
        Asked::Order => match order {
            Ordering::Less => b"lt",
            Ordering::Equal => b"eq",
            Ordering::Greater => b"gt",
        },
    }
}

/// Writes the line of what is asked of two registers' terms.
fn put_compared<S: Space, K: Sink>(
    space: &S,
    names: &AtomNames,
    seat: Seat,
    asked: Asked,
    a: Reg,
    b: Reg,
    sink: &mut K,
) -> Result<(), SinkFault>
    requires can { CanReply S.sits S.named space.now names.now (Reply.Told seat (Compared asked a b)) }
    ensures { (s : State) → S.stands space.now s
        → WritesTold K.wrote K.faults sink.old sink.new
        (replies_text
        (reply_lines (Reply.Told seat (Compared asked a b)) (record { state = s; names = names.now; text = S.text space.now names.now }))) result }
{
    match space.compare(names, seat, a, b) {
        Ok(order) => put_two(sink, compared_word(asked, order), b"\n"),
        Err(refusal) => put_refusal(refusal, sink),
    }
}

/// Writes the line of the flat size of a register's term.
fn put_flat<S: Space, K: Sink>(
    space: &S,
    names: &AtomNames,
    seat: Seat,
    r: Reg,
    sink: &mut K,
) -> Result<(), SinkFault>
    requires can { CanReply S.sits S.named space.now names.now (Reply.Told seat (Flat r)) }
    ensures { (s : State) → S.stands space.now s
        → WritesTold K.wrote K.faults sink.old sink.new
        (replies_text (reply_lines (Reply.Told seat (Flat r)) (record { state = s; names = names.now; text = S.text space.now names.now }))) result }
{
    match space.measure(seat, r) {
        Ok(measure) => put_counted(b"", measure.flat, sink),
        Err(refusal) => put_refusal(refusal, sink),
    }
}

/// Writes the line of what a verb that prints tells.
fn put_told<S: Space, K: Sink>(
    space: &S,
    names: &AtomNames,
    seat: Seat,
    telling: Telling,
    sink: &mut K,
) -> Result<(), SinkFault>
    requires can { CanReply S.sits S.named space.now names.now (Reply.Told seat telling) }
    ensures { (s : State) → S.stands space.now s
        → WritesTold K.wrote K.faults sink.old sink.new
        (replies_text (reply_lines (Reply.Told seat telling) (record { state = s; names = names.now; text = S.text space.now names.now }))) result }
{
    match telling {
        Telling::Text(r) => put_text(space, names, seat, r, sink),
        Telling::Compared(asked, a, b) => put_compared(space, names, seat, asked, a, b, sink),
        Telling::Flat(r) => put_flat(space, names, seat, r, sink),
        Telling::Queue => {
            space.queue(names, seat, sink)?;
            put(sink, b"\n")
        }
    }
}

/// Writes the line of a map of the store.
fn put_map<S: Space, K: Sink>(
    space: &S,
    names: &AtomNames,
    line: MapLine,
    sink: &mut K,
) -> Result<(), SinkFault>
    requires can { CanReply S.sits S.named space.now names.now (Reply.Map line) }
    ensures sent { WritesTold K.wrote K.faults sink.old sink.new (end_of_line (S.text space.now names.now (map_command line))) result }
    ensures allowed { (s : State) → S.stands space.now s → names.now ≡ s.names
        → IsMapOf (map_command line) s (S.text space.now names.now (map_command line)) }
{
    match line {
        MapLine::Counts => {
            space.counts(names, sink)?;
            put(sink, b"\n")
        }
    }
}

/// The text of a reply that is one constant text or none, so that it takes one write at most.
pub(crate) fn constant_text(reply: Reply) -> Option<&'static [u8]>
    ensures text { IfSome result (λ t. (x : Shown) → replies_text (reply_lines reply x) ≡ t.now) }
    ensures plain { IfSome result (λ _. is_plain reply ≡ true) }
{
    match reply {
        Reply::Nothing => Some(b""),
        Reply::Done => Some(b"ok\n"),
        Reply::Quit => Some(b"ok\n"),
        Reply::Refused(refusal) => constant_line(refusal),
        Reply::Spawned(_) | Reply::Numbers | Reply::Map(_) | Reply::Told(_, _) => None,
    }
}

/// Writes the lines of a reply.
pub(crate) fn put_reply<S: Space, K: Sink>(
    space: &S,
    names: &AtomNames,
    reply: Reply,
    sink: &mut K,
) -> Result<(), SinkFault>
    requires can { CanReply S.sits S.named space.now names.now reply }
    ensures sent { (s : State) → S.stands space.now s
        → WritesTold K.wrote K.faults sink.old sink.new
        (replies_text (reply_lines reply (record { state = s; names = names.now; text = S.text space.now names.now }))) result }
    ensures allowed { (s : State) → S.stands space.now s → names.now ≡ s.names
        → AllowsMap reply (record { state = s; names = names.now; text = S.text space.now names.now }) }
{
    match reply {
        Reply::Nothing => Ok(()),
        Reply::Done => put(sink, b"ok\n"),
        Reply::Quit => put(sink, b"ok\n"),
        Reply::Spawned(n) => put_counted(b"ok ", n, sink),
        Reply::Numbers => put_numbers(space, sink),
        Reply::Map(line) => put_map(space, names, line, sink),
        Reply::Told(seat, telling) => put_told(space, names, seat, telling, sink),
        Reply::Refused(refusal) => put_refusal(refusal, sink),
    }
}
