// The trait of spaces: a call for each verb.
ghost use Rattle.std.specs.Prelude.{
  ◌≡◌,
  ℕ,
  ◌+◌,
  ◌<◌,
  ◌≤◌,
  Bool,
  length,
  max,
  List,
  IfSome,
  IfOk,
  OnErr,
  OnOk,
  Some,
  decimal,
  true,
  is_some,
  find,
  nat_lt,
};
ghost use Rattle.atom_names.specs.Names.{most_names};
ghost use Rattle.line_io.specs.Faults.{Rose};
ghost use Rattle.line_io.specs.Sink.{Writes};
ghost use Rattle.script_grammar.specs.declared.command.Command.{Command};
ghost use Rattle.script_grammar.specs.declared.command.Command.TheVariants.{Process, System};
ghost use Rattle.script_grammar.specs.declared.command.Verb.TheVariants as verb;
ghost use Rattle.script_grammar.specs.declared.command.SysVerb.TheVariants as sysverb;
ghost use Rattle.script_grammar.specs.Grammar.{MayReceive};
ghost use Rattle.script_grammar.specs.Names.{IsRegister, PicksRegister};
ghost use Rattle.script_grammar.specs.Written.{Term, Terms};
ghost use Rattle.plain_term.specs.Measures.{nodes};
ghost use Rattle.plain_machine.specs.State.{Process as Live, State, HasNames, is_live, live_numbers, process_of, register};
ghost use Rattle.plain_machine.specs.Step.{step, eq_text, cmp_text};
ghost use Rattle.plain_machine.specs.Maps.{IsMapOf};
ghost use Rattle.space_api.specs.Calls.{AreRising, Becomes, Follows, HasEnv, HasTerm, IsEnv, IsWrittenTerm, KeepsBooks, Passes, Prints, Tells, WritesReply, most_calls, one_term, said};

use atom_names::AtomNames;
use line_io::{Sink, SinkFault};
use plain_machine::{Depth, Measure, Pick, Refusal, Reg, Shape, To};
use plain_term::Item;
use std::cmp::Ordering;

/// Why a text was not written: the term is beyond the walk limit, or the sink failed.
#[derive(Clone, Copy)]
pub enum Stop {
    Big,
    Fault,
}

/// Where a live process is found: its number, and the row that it has in the space's table.
#[derive(Clone, Copy)]
pub struct Seat {
    pub pid: u64,
    pub row: usize,
}

/// The processes of a machine with all that they hold.
///
/// A call that changes something gives the state of the machine's step, or the refusal with the
/// state as before. `names` are the names of the state, with the new ones of the line after them. A
/// call for a process takes the seat where `find` found it.
pub trait Space {
    ghost use Rattle.space_api.specs.declared.space.Seat.{Seat};

    /// The states that the space stands for. Their names are not the space's.
    ghost stands: { Self → State → Type 0 };

    /// The process with the seat's number lives and has its row there.
    ghost sits: { Self → Seat → Type 0 };

    /// How many words the space has.
    ghost words: { Self → ℕ };

    /// A number that the space says is above every atom and every fun's name that it keeps.
    ghost named: { Self → ℕ };

    /// A number that each changing call raises by at most one.
    ghost calls: { Self → ℕ };

    /// The text of the store as it is, which answers a map line, with these names.
    ghost text: { Self → List (List ℕ) → Command → List ℕ };

    /// Where this process is found; `None` exactly where no such process lives.
    fn find(&self, pid: u64) -> Option<Seat>
        ensures found { IfSome result (λ seat. (seat.pid ≡ pid) × sits self.now seat) }
        ensures lives { (s : State) → stands self.now s → is_some result ≡ is_live pid s };

    /// The least live number above `pid`.
    fn live_after(&self, pid: u64) -> Option<u64>
        ensures above { IfSome result (λ n. pid < n) }
        ensures means { (s : State) → stands self.now s → result ≡ find (λ n. nat_lt pid n) (live_numbers s) }
        ensures rising { (s : State) → stands self.now s → AreRising 0 (live_numbers s) };

    /// Makes a process, whose number is the answer. Refused by `Procs` where too many live, and for want of space.
    fn spawn(&mut self) -> Result<u64, Refusal>
        requires calls { calls self.old < most_calls }
        ensures becomes { (s : State) (terms : Terms) (names : List (List ℕ)) → stands self.old s → HasNames s names
            → Becomes (words self.old) s (said (System sysverb.Spawn) terms names) result (stands self.new) }
        ensures number { (s : State) → stands self.old s → IfOk result (λ n. n ≡ s.next) }
        ensures books { KeepsBooks words calls named self.old self.new (named self.old) };

    /// Ends a process.
    fn exit(&mut self, seat: Seat)
        requires sits { sits self.old seat }
        requires calls { calls self.old < most_calls }
        ensures passes { (s : State) (terms : Terms) (names : List (List ℕ)) → stands self.old s → HasNames s names
            → Passes (step s (said (Process seat.pid verb.Exit) terms names)) (stands self.new) }
        ensures books { KeepsBooks words calls named self.old self.new (named self.old) };

    /// Builds the written term in the register. Refused for want of space, else by `Big` or `MapSize` for its maps.
    fn build(&mut self, names: &AtomNames, seat: Seat, r: Reg, code: &[Item]) -> Result<(), Refusal>
        requires sits { sits self.old seat }
        requires register { IsRegister r }
        requires calls { calls self.old < most_calls }
        requires named { named self.old ≤ length names.now }
        requires term { HasTerm names.now code.now }
        ensures becomes { (s : State) (t : Term) → stands self.old s → HasNames s names.now → IsWrittenTerm names.now code.now t
            → Becomes (words self.old) s (said (Process seat.pid (verb.Set r)) (one_term t) names.now) result (stands self.new) }
        ensures books { KeepsBooks words calls named self.old self.new (max (named self.old) (length names.now)) }
        ensures refused { OnErr result (named self.new ≤ named self.old) };

    /// Puts a part of the second register's term in the first. Refused by `BadArg` where there is none, and for want of space.
    fn pick(
        &mut self,
        names: &AtomNames,
        seat: Seat,
        r: Reg,
        s: Reg,
        how: Pick,
    ) -> Result<(), Refusal>
        requires sits { sits self.old seat }
        requires register { IsRegister r }
        requires other { IsRegister s }
        requires key { PicksRegister how }
        requires calls { calls self.old < most_calls }
        requires named { named self.old ≤ length names.now }
        ensures becomes { (state : State) (terms : Terms) → stands self.old state → HasNames state names.now
            → Becomes (words self.old) state (said (Process seat.pid (verb.Choose r s how)) terms names.now) result (stands self.new) }
        ensures books { KeepsBooks words calls named self.old self.new (named self.old) };

    /// Puts the map of `s` with the term of `k` bound to that of `v` in the register `r`. Refused by `BadArg` where there is no
    /// map, `Big` where the key is beyond the walk limit, `MapSize` where it is a key too many, and for want of space.
    fn map_put(
        &mut self,
        names: &AtomNames,
        seat: Seat,
        r: Reg,
        s: Reg,
        k: Reg,
        v: Reg,
    ) -> Result<(), Refusal>
        requires sits { sits self.old seat }
        requires register { IsRegister r }
        requires map { IsRegister s }
        requires key { IsRegister k }
        requires value { IsRegister v }
        requires calls { calls self.old < most_calls }
        requires named { named self.old ≤ length names.now }
        ensures becomes { (state : State) (terms : Terms) → stands self.old state → HasNames state names.now
            → Becomes (words self.old) state (said (Process seat.pid (verb.MapPut r s k v)) terms names.now) result (stands self.new) }
        ensures books { KeepsBooks words calls named self.old self.new (named self.old) };

    /// Puts a binary of `len` bytes, each of them `byte`, in the register. Refused by `BadArg` where that is more than 1,048,576
    /// bytes, or `byte` is none, and for want of space.
    fn fill(&mut self, seat: Seat, r: Reg, len: u64, byte: u64) -> Result<(), Refusal>
        requires sits { sits self.old seat }
        requires register { IsRegister r }
        requires calls { calls self.old < most_calls }
        ensures becomes { (s : State) (terms : Terms) (names : List (List ℕ)) → stands self.old s → HasNames s names
            → Becomes (words self.old) s (said (Process seat.pid (verb.Fill r len byte)) terms names) result (stands self.new) }
        ensures books { KeepsBooks words calls named self.old self.new (named self.old) };

    /// Puts a fun in the register: the number of its name, its arity, and the registers whose terms are its environment. Its
    /// creator is the process. Refused by `BadArg` where the arity is above 255, and for want of space.
    fn make_fun(
        &mut self,
        seat: Seat,
        r: Reg,
        name: u64,
        arity: u64,
        env: &[Item],
    ) -> Result<(), Refusal>
        requires sits { sits self.old seat }
        requires register { IsRegister r }
        requires calls { calls self.old < most_calls }
        requires name { name < most_names }
        requires env { IsEnv env.now }
        ensures becomes { (s : State) (terms : Terms) (names : List (List ℕ)) → stands self.old s → HasNames s names → HasEnv names name env.now terms
            → Becomes (words self.old) s (said (Process seat.pid (verb.Fun r name arity)) terms names) result (stands self.new) }
        ensures books { KeepsBooks words calls named self.old self.new (max (named self.old) (name + 1)) }
        ensures refused { OnErr result (named self.new ≤ named self.old) };

    /// Puts a new reference in the register. Refused for want of space.
    fn make_ref(&mut self, seat: Seat, r: Reg) -> Result<(), Refusal>
        requires sits { sits self.old seat }
        requires register { IsRegister r }
        requires calls { calls self.old < most_calls }
        ensures becomes { (s : State) (terms : Terms) (names : List (List ℕ)) → stands self.old s → HasNames s names
            → Becomes (words self.old) s (said (Process seat.pid (verb.Ref r)) terms names) result (stands self.new) }
        ensures books { KeepsBooks words calls named self.old self.new (named self.old) };

    /// Puts a tuple or a list of `n` times the second register's term in the first. Refused by `BadArg` where that is more than
    /// 65,536 places, and for want of space.
    fn repeat(&mut self, seat: Seat, r: Reg, shape: Shape, n: u64, s: Reg) -> Result<(), Refusal>
        requires sits { sits self.old seat }
        requires register { IsRegister r }
        requires other { IsRegister s }
        requires calls { calls self.old < most_calls }
        ensures becomes { (state : State) (terms : Terms) (names : List (List ℕ)) → stands self.old state → HasNames state names
            → Becomes (words self.old) state (said (Process seat.pid (verb.Repeat r shape n s)) terms names) result (stands self.new) }
        ensures books { KeepsBooks words calls named self.old self.new (named self.old) };

    /// Puts the process's own pid in the register.
    fn own_pid(&mut self, seat: Seat, r: Reg)
        requires sits { sits self.old seat }
        requires register { IsRegister r }
        requires calls { calls self.old < most_calls }
        ensures passes { (s : State) (terms : Terms) (names : List (List ℕ)) → stands self.old s → HasNames s names
            → Passes (step s (said (Process seat.pid (verb.Own r)) terms names)) (stands self.new) }
        ensures books { KeepsBooks words calls named self.old self.new (named self.old) };

    /// Puts the register's term on the stack. Refused for want of space.
    fn push(&mut self, seat: Seat, s: Reg) -> Result<(), Refusal>
        requires sits { sits self.old seat }
        requires register { IsRegister s }
        requires calls { calls self.old < most_calls }
        ensures becomes { (state : State) (terms : Terms) (names : List (List ℕ)) → stands self.old state → HasNames state names
            → Becomes (words self.old) state (said (Process seat.pid (verb.Push s)) terms names) result (stands self.new) }
        ensures books { KeepsBooks words calls named self.old self.new (named self.old) };

    /// Takes the term that was pushed last off the stack into the register. Refused by `Empty`.
    fn pop(&mut self, seat: Seat, r: Reg) -> Result<(), Refusal>
        requires sits { sits self.old seat }
        requires register { IsRegister r }
        requires calls { calls self.old < most_calls }
        ensures follows { (s : State) (terms : Terms) (names : List (List ℕ)) → stands self.old s → HasNames s names
            → Follows (step s (said (Process seat.pid (verb.Pop r)) terms names)) s result (stands self.new) }
        ensures books { KeepsBooks words calls named self.old self.new (named self.old) };

    /// Puts a copy of the register's term last into the queue of the receiver; nothing changes where the receiver does not live.
    /// Refused by `BadArg` where the receiver is a register that holds no pid, `Big` where the term is beyond the walk limit, and
    /// for want of space.
    fn send(&mut self, seat: Seat, s: Reg, to: To) -> Result<(), Refusal>
        requires sits { sits self.old seat }
        requires register { IsRegister s }
        requires receiver { MayReceive to }
        requires calls { calls self.old < most_calls }
        ensures becomes { (state : State) (terms : Terms) (names : List (List ℕ)) → stands self.old state → HasNames state names
            → Becomes (words self.old) state (said (Process seat.pid (verb.Send s to)) terms names) result (stands self.new) }
        ensures books { KeepsBooks words calls named self.old self.new (named self.old) };

    /// Takes the first message off the queue of the process into the register. Refused by `Empty`.
    fn receive(&mut self, seat: Seat, r: Reg) -> Result<(), Refusal>
        requires sits { sits self.old seat }
        requires register { IsRegister r }
        requires calls { calls self.old < most_calls }
        ensures follows { (s : State) (terms : Terms) (names : List (List ℕ)) → stands self.old s → HasNames s names
            → Follows (step s (said (Process seat.pid (verb.Recv r)) terms names)) s result (stands self.new) }
        ensures books { KeepsBooks words calls named self.old self.new (named self.old) };

    /// Collects the process, to this depth.
    fn collect(&mut self, seat: Seat, depth: Depth)
        requires sits { sits self.old seat }
        requires calls { calls self.old < most_calls }
        ensures passes { (s : State) (terms : Terms) (names : List (List ℕ)) → stands self.old s → HasNames s names
            → Passes (step s (said (Process seat.pid (verb.Gc depth)) terms names)) (stands self.new) }
        ensures books { KeepsBooks words calls named self.old self.new (named self.old) };

    /// Sweeps every process fully.
    fn sweep_all(&mut self)
        requires calls { calls self.old < most_calls }
        ensures passes { (s : State) (terms : Terms) (names : List (List ℕ)) → stands self.old s → HasNames s names
            → Passes (step s (said (System sysverb.Sweep) terms names)) (stands self.new) }
        ensures books { KeepsBooks words calls named self.old self.new (named self.old) };

    /// The nodes and the flat size of the register's term. Refused by `Big` where it is beyond the walk limit.
    fn measure(&self, seat: Seat, s: Reg) -> Result<Measure, Refusal>
        requires sits { sits self.now seat }
        requires register { IsRegister s }
        ensures flat { (state : State) (terms : Terms) (names : List (List ℕ)) → stands self.now state
            → Tells (step state (said (Process seat.pid (verb.Flat s)) terms names)) (λ m. decimal m.flat) result }
        ensures nodes { (state : State) (q : Live) → stands self.now state → process_of seat.pid state ≡ Some q
            → IfOk result (λ m. m.nodes ≡ nodes state.shared (register s.0 q)) };

    /// How the first register's term stands to the second's in the order of terms. Refused by `Big` where one of the two is
    /// beyond the walk limit.
    fn compare(&self, names: &AtomNames, seat: Seat, a: Reg, b: Reg) -> Result<Ordering, Refusal>
        requires sits { sits self.now seat }
        requires register { IsRegister a }
        requires other { IsRegister b }
        requires named { named self.now ≤ length names.now }
        ensures equal { (state : State) (terms : Terms) → stands self.now state
            → Tells (step state (said (Process seat.pid (verb.Eq a b)) terms names.now)) eq_text result }
        ensures order { (state : State) (terms : Terms) → stands self.now state
            → Tells (step state (said (Process seat.pid (verb.Cmp a b)) terms names.now)) cmp_text result };

    /// Writes the text of the register's term. Where the term is beyond the walk limit nothing is written.
    fn print<K: Sink>(
        &self,
        names: &AtomNames,
        seat: Seat,
        s: Reg,
        sink: &mut K,
    ) -> Result<(), Stop>
        requires sits { sits self.now seat }
        requires register { IsRegister s }
        requires named { named self.now ≤ length names.now }
        ensures prints { (state : State) (terms : Terms) → stands self.now state
            → Prints (step state (said (Process seat.pid (verb.Print s)) terms names.now)) K.wrote sink.old sink.new result }
        ensures big { result ≡ Err Stop.Big → sink.new ≡ sink.old }
        ensures later { K.faults sink.old ≤ K.faults sink.new }
        ensures rose { result ≡ Err Stop.Fault → Rose (K.faults sink.old) (K.faults sink.new) }
        ensures told { OnOk result (K.faults sink.new ≡ K.faults sink.old) };

    /// Writes the texts of the messages that wait for the process, in order.
    fn queue<K: Sink>(&self, names: &AtomNames, seat: Seat, sink: &mut K) -> Result<(), SinkFault>
        requires sits { sits self.now seat }
        requires named { named self.now ≤ length names.now }
        ensures writes { (state : State) (terms : Terms) → stands self.now state
            → WritesReply (step state (said (Process seat.pid verb.Queue) terms names.now)) K.wrote sink.old sink.new result }
        ensures later { K.faults sink.old ≤ K.faults sink.new }
        ensures rose { OnErr result (Rose (K.faults sink.old) (K.faults sink.new)) }
        ensures told { OnOk result (K.faults sink.new ≡ K.faults sink.old) };

    /// Writes the text for `counts`: every record of the store with its count.
    fn counts<K: Sink>(&self, names: &AtomNames, sink: &mut K) -> Result<(), SinkFault>
        requires named { named self.now ≤ length names.now }
        ensures writes { Writes K.wrote sink.old sink.new result (text self.now names.now (System sysverb.Counts)) }
        ensures allowed { (s : State) → stands self.now s → names.now ≡ s.names
            → IsMapOf (System sysverb.Counts) s (text self.now names.now (System sysverb.Counts)) }
        ensures later { K.faults sink.old ≤ K.faults sink.new }
        ensures rose { OnErr result (Rose (K.faults sink.old) (K.faults sink.new)) }
        ensures told { OnOk result (K.faults sink.new ≡ K.faults sink.old) };
}
