// The text of a queue.
ghost use Rattle.std.specs.Prelude.{◌≡◌, ℕ, ◌<◌, ◌≤◌, ◌++◌, List, OnErr, OnOk, length};
ghost use Rattle.line_io.specs.Faults.{Rose};
ghost use Rattle.line_io.specs.Sink.{WritesTold};
ghost use Rattle.plain_term.specs.Text.{text};
ghost use Rattle.plain_term.specs.Tree.{Tree};
ghost use Rattle.script_grammar.specs.declared.command.Command.TheVariants.{Process};
ghost use Rattle.script_grammar.specs.declared.command.Verb.TheVariants as verb;
ghost use Rattle.script_grammar.specs.Written.{Terms};
ghost use Rattle.plain_machine.specs.State.{State};
ghost use Rattle.plain_machine.specs.Step.{step};
ghost use Rattle.space_api.specs.Calls.{WritesReply, said};
ghost use Rattle.reply_text.specs.Texts.{divider};
ghost use Rattle.term_print.specs.Printed.{CanPrint};
ghost use Rattle.term_words.specs.Role.{always};
ghost use Rattle.term_words.specs.Stands.{Stands};
ghost use Rattle.process_verbs.specs.Verbs.{Holds, Sits, VerbsStand};
ghost use Rattle.process_verbs.specs.Queued.{AreMessages, HaveMessages, messages_text, whole_text};

use crate::verbs::Verbs;
use atom_names::AtomNames;
use heaps_api::{Heaps, Waiting};
use line_io::{Sink, SinkFault};
use space_api::Seat;
use term_print::print;
use text_parts::put;
use word_mem::WordMem;

impl<H: Heaps> Verbs<H> {
    /// Writes the texts of the messages that wait, in order.
    pub fn queue<K: Sink>(
        &self,
        names: &AtomNames,
        seat: Seat,
        sink: &mut K,
    ) -> Result<(), SinkFault>
        requires holds { Holds H.meaning self.now }
        requires sits { Sits H.meaning self.now seat }
        requires named { self.now.named ≤ length names.now }
        ensures writes { (state : State) (terms : Terms) → VerbsStand H.meaning self.now state
            → WritesReply (step state (said (Process seat.pid verb.Queue) terms names.now)) K.wrote sink.old sink.new result }
        ensures later { K.faults sink.old ≤ K.faults sink.new }
        ensures rose { OnErr result (Rose (K.faults sink.old) (K.faults sink.new)) }
        ensures told { OnOk result (K.faults sink.new ≡ K.faults sink.old) }
    {
        put_queue(&self.heaps, names, self.heaps.waiting(seat.row), sink)
    }
}

// Writes the texts of the messages from a place on in brackets.
fn put_queue<H: Heaps, K: Sink>(
    heaps: &H,
    names: &AtomNames,
    at: Waiting,
    sink: &mut K,
) -> Result<(), SinkFault>
    requires waits { H.meaning.waits heaps.now at }
    requires count { length (H.meaning.messages heaps.now at) ≡ at.count }
    requires have { HaveMessages (H.meaning.mem heaps.now) (length names.now) (H.meaning.messages heaps.now at) }
    ensures { (shared : List (List ℕ)) (ts : List Tree) → AreMessages shared (H.meaning.mem heaps.now) (length names.now) (H.meaning.messages heaps.now at) ts
        → WritesTold K.wrote K.faults sink.old sink.new (whole_text names.now shared ts) result }
{
    put(sink, b"[")?;
    put_messages(heaps, names, at, sink)?;
    put(sink, b"]")
}

// Writes the texts of the messages from a place on, divided by commas.
fn put_messages<H: Heaps, K: Sink>(
    heaps: &H,
    names: &AtomNames,
    at: Waiting,
    sink: &mut K,
) -> Result<(), SinkFault>
    requires waits { H.meaning.waits heaps.now at }
    requires count { length (H.meaning.messages heaps.now at) ≡ at.count }
    requires have { HaveMessages (H.meaning.mem heaps.now) (length names.now) (H.meaning.messages heaps.now at) }
    ensures { (shared : List (List ℕ)) (ts : List Tree) → AreMessages shared (H.meaning.mem heaps.now) (length names.now) (H.meaning.messages heaps.now at) ts
        → WritesTold K.wrote K.faults sink.old sink.new (messages_text names.now shared ts) result }
{
    let mut rest = at;
    for i in 0..at.count {
        let next = heaps.message(rest);
        put_message(heaps.mem(), names, i == 0, next.word, sink)?;
        rest = next.rest;
    }
    Ok(())
}

// Writes the text of a message, after a comma but for the first.
fn put_message<K: Sink>(
    mem: &WordMem,
    names: &AtomNames,
    first: bool,
    w: u64,
    sink: &mut K,
) -> Result<(), SinkFault>
    requires { CanPrint mem.now names.now w }
    ensures { (shared : List (List ℕ)) (t : Tree) → Stands always shared mem.now w t
        → WritesTold K.wrote K.faults sink.old sink.new (divider first ++ text names.now shared t) result }
{
    put(sink, divider_bytes(first))?;
    print(mem, names, w, sink)
}

// What stands before a message.
fn divider_bytes(first: bool) -> &'static [u8]
    ensures { result.now ≡ divider first }
{
    if first { b"" } else { b"," }
}
