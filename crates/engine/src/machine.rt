// A machine, and one line done and answered by it.
ghost use Rattle.std.specs.Prelude.{◌≡◌, ℕ, ◌+◌, ◌<◌, ◌≤◌, List, length, true};
ghost use Rattle.script_grammar.specs.Names.{Parsed};
ghost use Rattle.script_grammar.specs.ReadAs.{IsRead};
ghost use Rattle.script_grammar.specs.declared.command.Command.{Command};
ghost use Rattle.plain_machine.specs.Run.{replies_text};
ghost use Rattle.plain_machine.specs.State.{State};
ghost use Rattle.plain_machine.specs.Step.{is_printing};
ghost use Rattle.line_io.specs.Lines.{text, long};
ghost use Rattle.line_io.specs.Sink.{WritesTold};
ghost use Rattle.line_io.specs.declared.reader.TheConstants.{LONGEST_LINE};
ghost use Rattle.space_api.specs.Calls.{KeepsBooks, most_calls};
ghost use Rattle.engine.specs.Replies.{AllowsMap, CanReply, ends_script, reply_lines};
ghost use Rattle.engine.specs.Acts.{StandsWith, Takes, leaving};
ghost use Rattle.engine.specs.Last.{SaysNothing};
ghost use Rattle.engine.specs.Steps.{StepWrites, Steps, TellsQuit};

use crate::act::act;
use crate::reply::{Reply, constant_text, put_reply};
use atom_names::AtomNames;
use line_io::{Gathered, Sink, SinkFault};
use plain_machine::Refusal;
use script_parse::{Code, parse};
use space_api::Space;
use text_parts::put;

/// A space with the names of its atoms, and the buffer into which lines are parsed.
#[derive(Drop)]
pub struct Machine<S: Space> {
    pub space: S,
    pub names: AtomNames,
    pub code: Code,
}

/// What a line comes to: the script goes on, it ends, or the reply could not be written.
#[derive(Clone, Copy)]
pub enum Stepped {
    Next,
    Quit,
    SinkFault,
}

/// Reads a line and does what it says. A refused line leaves no name.
fn take_line<S: Space>(space: &mut S, names: &mut AtomNames, code: &mut Code, line: &[u8]) -> Reply
    requires short { length line.now ≤ LONGEST_LINE }
    requires calls { S.calls space.old < most_calls }
    requires named { S.named space.old ≤ length names.old }
    ensures takes { (s : State) → StandsWith (S.stands space.old) names.old s
        → Takes (S.words space.old) s line.now result
        (record { stands = S.stands space.new; text = S.text space.new names.new }) names.new }
    ensures can { CanReply S.sits S.named space.new names.new result }
    ensures books { KeepsBooks S.words S.calls S.named space.old space.new (length names.new) }
    ensures leaves { (p : Parsed) → IsRead names.old line.now p → is_printing p.command ≡ true
        → (space.new ≡ space.old) × (names.new ≡ names.old) }
    ensures idle { SaysNothing names.old (text line.now) → (space.new ≡ space.old) × (names.new ≡ names.old) }
{
    let before = names.count();
    match parse(line, names, code) {
        Err(refusal) => Reply::Refused(refusal),
        Ok(command) => {
            let reply = act(space, names, command, code.items());
            if let Reply::Refused(_) = reply {
                names.forget(before);
            }
            reply
        }
    }
}

/// Gathers the lines of a reply, and writes them in one piece.
fn gather<S: Space, K: Sink>(
    space: &S,
    names: &AtomNames,
    reply: Reply,
    sink: &mut K,
) -> Result<(), SinkFault>
    requires can { CanReply S.sits S.named space.now names.now reply }
    ensures sent { (s : State) → S.stands space.now s
        → WritesTold K.wrote K.faults sink.old sink.new
        (replies_text (reply_lines reply (record { state = s; names = names.now; text = S.text space.now names.now }))) result }
    ensures allowed { (s : State) → S.stands space.now s → names.now ≡ s.names
        → AllowsMap reply (record { state = s; names = names.now; text = S.text space.now names.now }) }
{
    let mut gathered = Gathered::new(sink);
    put_reply(space, names, reply, &mut gathered)?;
    gathered.finish()
}

/// Writes the lines of a reply in one piece. A constant text needs no gathering.
fn send<S: Space, K: Sink>(
    space: &S,
    names: &AtomNames,
    reply: Reply,
    sink: &mut K,
) -> Result<(), SinkFault>
    requires can { CanReply S.sits S.named space.now names.now reply }
    ensures sent { (s : State) → S.stands space.now s
        → WritesTold K.wrote K.faults sink.old sink.new
        (replies_text (reply_lines reply (record { state = s; names = names.now; text = S.text space.now names.now }))) result }
    ensures allowed { (s : State) → S.stands space.now s → names.now ≡ s.names
        → AllowsMap reply (record { state = s; names = names.now; text = S.text space.now names.now }) }
{
    if let Reply::Nothing = reply {
        return Ok(());
    }
    if let Some(text) = constant_text(reply) {
        return put(sink, text);
    }
    gather(space, names, reply, sink)
}

/// Writes the lines of a reply, and says what the line comes to.
fn answer<S: Space, K: Sink>(m: &Machine<S>, reply: Reply, sink: &mut K) -> Stepped
    requires can { CanReply S.sits S.named m.now.space m.now.names reply }
    ensures tells { TellsQuit result (ends_script reply) }
    ensures writes { (s : State) → S.stands m.now.space s
        → StepWrites (record { wrote = K.wrote; faults = K.faults; before = sink.old; after = sink.new })
        (replies_text (reply_lines reply (record { state = s; names = m.now.names; text = S.text m.now.space m.now.names }))) result }
    ensures allowed { (s : State) → S.stands m.now.space s → m.now.names ≡ s.names
        → AllowsMap reply (record { state = s; names = m.now.names; text = S.text m.now.space m.now.names }) }
    ensures later { (s : State) → S.stands m.now.space s → K.faults sink.old ≤ K.faults sink.new }
{
    if let Err(SinkFault) = send(&m.space, &m.names, reply, sink) {
        return Stepped::SinkFault;
    }
    if let Reply::Quit = reply {
        return Stepped::Quit;
    }
    Stepped::Next
}

/// Does one line of a script of at most `LONGEST_LINE` bytes, and writes its reply.
///
/// The state becomes the next one first. At `SinkFault` a proper front of the reply was written.
pub fn step<S: Space, K: Sink>(m: &mut Machine<S>, line: &[u8], sink: &mut K) -> Stepped
    requires short { length line.now ≤ LONGEST_LINE }
    requires calls { S.calls m.old.space < most_calls }
    requires named { S.named m.old.space ≤ length m.old.names }
    // The machine of plain trees makes this step, and a map line is answered by the text of the store.
    ensures steps { (s : State) → StandsWith (S.stands m.old.space) m.old.names s
        → Steps (S.words m.old.space) s (text line.now)
        (leaving (S.stands m.new.space) (S.text m.new.space) m.new.names)
        (record { wrote = K.wrote; faults = K.faults; before = sink.old; after = sink.new }) result }
    // A line that prints, a map line among them, leaves the store as it is, and so does one that says no command.
    ensures leaves { (p : Parsed) → IsRead m.old.names line.now p → is_printing p.command ≡ true
        → (m.new.space ≡ m.old.space) × (m.new.names ≡ m.old.names) }
    ensures idle { SaysNothing m.old.names (text line.now) → (m.new.space ≡ m.old.space) × (m.new.names ≡ m.old.names) }
    ensures books { KeepsBooks S.words S.calls S.named m.old.space m.new.space (length m.new.names) }
{
    let reply = take_line(&mut m.space, &mut m.names, &mut m.code, line);
    answer(m, reply, sink)
}

/// Answers a line of more than `LONGEST_LINE` bytes.
pub(crate) fn refuse_long<S: Space, K: Sink>(m: &Machine<S>, sink: &mut K) -> Stepped
    ensures steps { (s : State) → StandsWith (S.stands m.now.space) m.now.names s
        → Steps (S.words m.now.space) s long
        (leaving (S.stands m.now.space) (S.text m.now.space) m.now.names)
        (record { wrote = K.wrote; faults = K.faults; before = sink.old; after = sink.new }) result }
{
    answer(m, Reply::Refused(Refusal::Long), sink)
}
