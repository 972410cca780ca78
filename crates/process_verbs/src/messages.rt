// Messages that are sent and received.
ghost use Rattle.std.specs.Prelude.{◌≡◌, ◌<◌, OnErr, Some};
ghost use Rattle.plain_machine.specs.State.{Process as Live, State, process_of, register};
ghost use Rattle.plain_machine.specs.Tightness.{receiver as receiver_of};
ghost use Rattle.script_grammar.specs.declared.command.Command.TheVariants.{Process};
ghost use Rattle.script_grammar.specs.declared.command.Verb.TheVariants as verb;
ghost use Rattle.script_grammar.specs.Grammar.{MayReceive};
ghost use Rattle.script_grammar.specs.Names.{IsRegister};
ghost use Rattle.space_api.specs.Calls.{most_calls};
ghost use Rattle.process_verbs.specs.Verbs.{Holds, Sits, VerbsStand};
ghost use Rattle.process_verbs.specs.Doing.{AsksToSend, Does, DoesAtOnce};
ghost use Rattle.process_verbs.specs.Telling.{number_seen};

use crate::verbs::Verbs;
use heaps_api::{Heaps, Want};
use plain_machine::{Refusal, Reg, To};
use space_api::Seat;
use term_read::{Look, look_at};
use term_walk::{Measured, measure};

impl<H: Heaps> Verbs<H> {
    /// Puts a copy of a register's term last into the queue of the process that the operand names; where that does not live
    /// there is no queue, and no word is asked for.
    pub fn send(&mut self, seat: Seat, s: Reg, to: To) -> Result<(), Refusal>
        requires holds { Holds H.meaning self.old }
        requires calls { self.old.calls < most_calls }
        requires sits { Sits H.meaning self.old seat }
        requires register { IsRegister s }
        requires receiver { MayReceive to }
        ensures does { Does H.meaning (Process seat.pid (verb.Send s to)) self.old self.new result }
        ensures asks { (state : State) (q : Live) → VerbsStand H.meaning self.old state → process_of seat.pid state ≡ Some q
            → AsksToSend H.meaning (receiver_of to q) state (register s.0 q) self.old self.new result }
    {
        let Some(number) = self.receiver(seat, to) else {
            return Err(Refusal::BadArg);
        };
        let Measured::Within(size) = measure(self.heaps.mem(), self.word(seat, s)) else {
            return Err(Refusal::Big);
        };
        let Some(row) = self.heaps.find(number) else {
            self.swept = false;
            return Ok(());
        };
        self.ask(Want::Message(row, size.flat))?;
        let w = self.word(seat, s);
        self.heaps.send(row, w);
        self.swept = false;
        Ok(())
    }

    // The number that the operand names; none where it is a register that holds no pid.
    fn receiver(&self, seat: Seat, to: To) -> Option<u64>
        requires holds { Holds H.meaning self.now }
        requires sits { Sits H.meaning self.now seat }
        requires receiver { MayReceive to }
        ensures { (state : State) (q : Live) → VerbsStand H.meaning self.now state → process_of seat.pid state ≡ Some q → result ≡ receiver_of to q }
    {
        match to {
            To::Number(n) => Some(n),
            To::Held(r) => pid_seen(look_at(self.heaps.mem(), self.word(seat, r))),
        }
    }

    /// Takes the first message off the queue into a register.
    pub fn receive(&mut self, seat: Seat, r: Reg) -> Result<(), Refusal>
        requires holds { Holds H.meaning self.old }
        requires calls { self.old.calls < most_calls }
        requires sits { Sits H.meaning self.old seat }
        requires register { IsRegister r }
        ensures does { DoesAtOnce H.meaning (Process seat.pid (verb.Recv r)) self.old self.new result }
        ensures received { H.meaning.received seat.row self.old.heaps self.new.heaps }
        ensures refused { OnErr result (self.new ≡ self.old) }
    {
        if !self.heaps.receive(seat.row, r) {
            return Err(Refusal::Empty);
        }
        self.calls += 1;
        self.swept = false;
        Ok(())
    }
}

// The number of a pid that was seen.
fn pid_seen(look: Look) -> Option<u64>
    ensures { result ≡ number_seen look }
{
    match look {
        Look::Pid(n) => Some(n),
        _ => None,
    }
}
