// What is told of the terms of registers.
ghost use Rattle.std.specs.Prelude.{◌≡◌, ℕ, ◌≤◌, Err, IfOk, List, OnErr, OnOk, Some, decimal, length};
ghost use Rattle.line_io.specs.Faults.{Rose};
ghost use Rattle.line_io.specs.Sink.{WritesTold};
ghost use Rattle.plain_term.specs.Measures.{nodes};
ghost use Rattle.script_grammar.specs.declared.command.Command.TheVariants.{Process};
ghost use Rattle.script_grammar.specs.declared.command.Verb.TheVariants as verb;
ghost use Rattle.script_grammar.specs.Names.{IsRegister};
ghost use Rattle.script_grammar.specs.Written.{Terms};
ghost use Rattle.plain_machine.specs.State.{State, process_of, register};
ghost use Rattle.plain_machine.specs.State.{Process as Live};
ghost use Rattle.plain_machine.specs.Step.{step, eq_text, cmp_text};
ghost use Rattle.space_api.specs.Calls.{Prints, Tells, said};
ghost use Rattle.process_verbs.specs.Verbs.{Holds, Sits, VerbsStand};
ghost use Rattle.process_verbs.specs.Telling.{IsHeld, measure_told, order_told};

use crate::verbs::Verbs;
use atom_names::AtomNames;
use heaps_api::Heaps;
use line_io::{Sink, SinkFault};
use plain_machine::{Measure, Refusal, Reg};
use space_api::{Seat, Stop};
use std::cmp::Ordering;
use term_order::{Compared, compare};
use term_print::{print, print_short};
use term_walk::{Measured, is_beyond, measure};

impl<H: Heaps> Verbs<H> {
    /// The word of a register.
    #[inline]
    pub fn word(&self, seat: Seat, r: Reg) -> u64
        requires holds { Holds H.meaning self.now }
        requires sits { Sits H.meaning self.now seat }
        requires register { IsRegister r }
        ensures { (s : State) (o : VerbsStand H.meaning self.now s) → IsHeld H.meaning self.now s o seat r result }
    {
        self.heaps.regs(seat.row)[r.0 as usize]
    }

    /// The nodes and the flat size of a register's term.
    pub fn measure(&self, seat: Seat, s: Reg) -> Result<Measure, Refusal>
        requires holds { Holds H.meaning self.now }
        requires sits { Sits H.meaning self.now seat }
        requires register { IsRegister s }
        ensures flat { (state : State) (terms : Terms) (names : List (List ℕ)) → VerbsStand H.meaning self.now state
            → Tells (step state (said (Process seat.pid (verb.Flat s)) terms names)) (λ m. decimal m.flat) result }
        ensures nodes { (state : State) (q : Live) → VerbsStand H.meaning self.now state → process_of seat.pid state ≡ Some q
            → IfOk result (λ m. m.nodes ≡ nodes state.shared (register s.0 q)) }
    {
        told_measure(measure(self.heaps.mem(), self.word(seat, s)))
    }

    /// How a register's term stands to another's in the order of terms.
    pub fn compare(
        &self,
        names: &AtomNames,
        seat: Seat,
        a: Reg,
        b: Reg,
    ) -> Result<Ordering, Refusal>
        requires holds { Holds H.meaning self.now }
        requires sits { Sits H.meaning self.now seat }
        requires register { IsRegister a }
        requires other { IsRegister b }
        requires named { self.now.named ≤ length names.now }
        ensures equal { (state : State) (terms : Terms) → VerbsStand H.meaning self.now state
            → Tells (step state (said (Process seat.pid (verb.Eq a b)) terms names.now)) eq_text result }
        ensures order { (state : State) (terms : Terms) → VerbsStand H.meaning self.now state
            → Tells (step state (said (Process seat.pid (verb.Cmp a b)) terms names.now)) cmp_text result }
    {
        let first = self.word(seat, a);
        let second = self.word(seat, b);
        told_order(compare(self.heaps.mem(), names, first, second))
    }

    /// Writes the text of a register's term.
    pub fn print<K: Sink>(
        &self,
        names: &AtomNames,
        seat: Seat,
        s: Reg,
        sink: &mut K,
    ) -> Result<(), Stop>
        requires holds { Holds H.meaning self.now }
        requires sits { Sits H.meaning self.now seat }
        requires register { IsRegister s }
        requires named { self.now.named ≤ length names.now }
        ensures prints { (state : State) (terms : Terms) → VerbsStand H.meaning self.now state
            → Prints (step state (said (Process seat.pid (verb.Print s)) terms names.now)) K.wrote sink.old sink.new result }
        ensures big { result ≡ Err Stop.Big → sink.new ≡ sink.old }
        ensures later { K.faults sink.old ≤ K.faults sink.new }
        ensures rose { result ≡ Err Stop.Fault → Rose (K.faults sink.old) (K.faults sink.new) }
        ensures told { OnOk result (K.faults sink.new ≡ K.faults sink.old) }
    {
        let mem = self.heaps.mem();
        let w = self.word(seat, s);
        if let Some(printed) = print_short(mem, names, w, sink) {
            return match printed {
                Ok(()) => Ok(()),
                Err(_) => Err(Stop::Fault),
            };
        }
        if is_beyond(mem, w) {
            return Err(Stop::Big);
        }
        match print(mem, names, w, sink) {
            Ok(()) => Ok(()),
            Err(_) => Err(Stop::Fault),
        }
    }

    /// Writes the text of `counts`: every record of the memory with its count.
    pub fn counts<K: Sink>(&self, names: &AtomNames, sink: &mut K) -> Result<(), SinkFault>
        requires holds { Holds H.meaning self.now }
        requires named { self.now.named ≤ length names.now }
        ensures written { WritesTold K.wrote K.faults sink.old sink.new (H.meaning.counts_text self.now.heaps names.now) result }
    {
        self.heaps.counts(names, sink)
    }
}

// What is told of a measured term.
fn told_measure(measured: Measured) -> Result<Measure, Refusal>
    ensures { result ≡ measure_told measured }
{
    match measured {
        Measured::Within(m) => Ok(Measure {
            nodes: m.nodes,
            flat: m.flat,
        }),
        Measured::Beyond => Err(Refusal::Big),
    }
}

// What is told of two compared terms.
fn told_order(compared: Compared) -> Result<Ordering, Refusal>
    ensures { result ≡ order_told compared }
{
    match compared {
        Compared::Less => Ok(Ordering::Less),
        Compared::Same => Ok(Ordering::Equal),
        Compared::More => Ok(Ordering::Greater),
        Compared::Beyond => Err(Refusal::Big),
    }
}
