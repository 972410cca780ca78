// A memory with the numbers that verbs keep, and the verbs that make, end and move.
ghost use Rattle.std.specs.Prelude.{◌≡◌, ℕ, ◌<◌, ◌≤◌, Err, IfOk};
ghost use Rattle.plain_machine.specs.declared.costs.TheConstants.{PLACE_COST};
ghost use Rattle.script_grammar.specs.declared.command.Command.TheVariants.{Process, System};
ghost use Rattle.script_grammar.specs.declared.command.Verb.TheVariants as verb;
ghost use Rattle.script_grammar.specs.declared.command.SysVerb.TheVariants as sysverb;
ghost use Rattle.script_grammar.specs.declared.refusal.Refusal.TheVariants.{Procs};
ghost use Rattle.script_grammar.specs.Names.{IsRegister};
ghost use Rattle.space_api.specs.Calls.{most_calls};
ghost use Rattle.heaps_api.specs.declared.wanted.Want.TheVariants.{Process as ForProcess, Words};
ghost use Rattle.process_verbs.specs.Verbs.{Holds, Sits};
ghost use Rattle.process_verbs.specs.Doing.{Asks, HasCollected, Does, DoesAlways, DoesAtOnce, IsIdle};

use heaps_api::{Heaps, Want};
use plain_machine::{Depth, MOST_PROCESSES, PLACE_COST, Refusal, Reg};
use space_api::Seat;
use term_tags::pid as pid_word;

/// The most items of a line, and so the most words of terms that are not yet put together.
pub const ROW: usize = 4096;

/// A memory of processes; a row of words for terms that are being put together; the number of the next process; how many shared
/// binaries were made; a number above all atoms; how many calls changed something; and whether nothing has since all was swept.
#[derive(Drop)]
pub struct Verbs<H> {
    pub heaps: H,
    pub scratch: Vec<u64>,
    pub next: u64,
    pub serials: u64,
    pub named: u64,
    pub calls: u64,
    pub swept: bool,
}

impl<H: Heaps> Verbs<H> {
    /// Makes a process, whose number is the answer.
    pub fn spawn(&mut self) -> Result<u64, Refusal>
        requires holds { Holds H.meaning self.old }
        requires calls { self.old.calls < most_calls }
        ensures does { Does H.meaning (System sysverb.Spawn) self.old self.new result }
        ensures number { IfOk result (λ n. n ≡ self.old.next) }
        ensures early { result ≡ Err Procs → self.new ≡ self.old }
        ensures asks { (result ≡ Err Procs → ⊥) → Asks H.meaning ForProcess self.old self.new result }
    {
        if self.heaps.count() >= MOST_PROCESSES {
            return Err(Refusal::Procs);
        }
        self.ask(Want::Process)?;
        let number = self.next;
        self.heaps.spawn(number);
        self.next += 1;
        self.swept = false;
        Ok(number)
    }

    /// Ends a process.
    pub fn exit(&mut self, seat: Seat)
        requires holds { Holds H.meaning self.old }
        requires calls { self.old.calls < most_calls }
        requires sits { Sits H.meaning self.old seat }
        ensures does { DoesAlways H.meaning (Process seat.pid verb.Exit) self.old self.new }
        ensures ended { H.meaning.ended seat.row self.old.heaps self.new.heaps }
    {
        self.heaps.exit(seat.row);
        self.calls += 1;
        self.swept = false;
    }

    /// Puts the process's own pid in a register.
    pub fn own_pid(&mut self, seat: Seat, r: Reg)
        requires holds { Holds H.meaning self.old }
        requires calls { self.old.calls < most_calls }
        requires sits { Sits H.meaning self.old seat }
        requires register { IsRegister r }
        ensures does { DoesAlways H.meaning (Process seat.pid (verb.Own r)) self.old self.new }
        ensures idle { IsIdle H.meaning self.old self.new }
    {
        self.put(seat, r, pid_word(seat.pid));
    }

    /// Puts a register's term on the stack.
    pub fn push(&mut self, seat: Seat, s: Reg) -> Result<(), Refusal>
        requires holds { Holds H.meaning self.old }
        requires calls { self.old.calls < most_calls }
        requires sits { Sits H.meaning self.old seat }
        requires register { IsRegister s }
        ensures does { Does H.meaning (Process seat.pid (verb.Push s)) self.old self.new result }
        ensures asks { Asks H.meaning (Words seat.row PLACE_COST 0) self.old self.new result }
    {
        self.ask(Want::Words(seat.row, PLACE_COST, 0))?;
        self.heaps.push(seat.row, s);
        self.swept = false;
        Ok(())
    }

    /// Takes the term that was pushed last off the stack into a register.
    pub fn pop(&mut self, seat: Seat, r: Reg) -> Result<(), Refusal>
        requires holds { Holds H.meaning self.old }
        requires calls { self.old.calls < most_calls }
        requires sits { Sits H.meaning self.old seat }
        requires register { IsRegister r }
        ensures does { DoesAtOnce H.meaning (Process seat.pid (verb.Pop r)) self.old self.new result }
        ensures idle { IsIdle H.meaning self.old self.new }
    {
        if !self.heaps.pop(seat.row, r) {
            return Err(Refusal::Empty);
        }
        self.calls += 1;
        self.swept = false;
        Ok(())
    }

    /// Collects a process, to this depth.
    pub fn collect(&mut self, seat: Seat, depth: Depth)
        requires holds { Holds H.meaning self.old }
        requires calls { self.old.calls < most_calls }
        requires sits { Sits H.meaning self.old seat }
        ensures does { DoesAlways H.meaning (Process seat.pid (verb.Gc depth)) self.old self.new }
        ensures collects { HasCollected H.meaning seat.row depth self.old self.new }
    {
        self.heaps.collect(seat.row, depth);
        self.calls += 1;
        self.swept = false;
    }

    /// Collects every process.
    pub fn sweep_all(&mut self)
        requires holds { Holds H.meaning self.old }
        requires calls { self.old.calls < most_calls }
        ensures does { DoesAlways H.meaning (System sysverb.Sweep) self.old self.new }
        ensures collects { H.meaning.swept_all self.old.heaps self.new.heaps }
    {
        self.heaps.sweep_all();
        self.calls += 1;
        self.swept = true;
    }
}
