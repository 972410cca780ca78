// The trait of memories of processes.
ghost use Rattle.std.specs.Prelude.{◌≡◌, ℕ, ◌+◌, ◌*◌, ◌<◌, ◌≤◌, ◌^◌, ◌==◌, ◌++◌, Bool, true, false, List, length, map, is_some, IfSome, slice_index, ◌∷◌};
ghost use Rattle.std.specs.List.{list_any};
ghost use Rattle.atom_names.specs.Names.{AreNames};
ghost use Rattle.line_io.specs.Sink.{WritesTold};
ghost use Rattle.plain_term.specs.Measures.{bin_words};
ghost use Rattle.plain_machine.specs.Maps.{CountsOf};
ghost use Rattle.plain_machine.specs.State.{Process, State};
ghost use Rattle.plain_machine.specs.declared.costs.TheConstants.{PLACE_COST};
ghost use Rattle.plain_machine.specs.declared.limits.TheConstants.{MOST_FILL, MOST_PROCESSES};
ghost use Rattle.script_grammar.specs.Names.{IsRegister};
ghost use Rattle.space_api.specs.Calls.{AreRising, HasTerm, IsEnv};
ghost use Rattle.store_image.specs.Image.{ImageStands};
ghost use Rattle.store_image.specs.Counting.{image_counts};
ghost use Rattle.term_tags.specs.declared.kinds.TheConstants.{ATOMS, PIDS};
ghost use Rattle.heaps_api.specs.Meaning.{CanAsk, Lives, Meaning, Stood};
ghost use Rattle.heaps_api.specs.Making.{words_of_make};
ghost use Rattle.heaps_api.specs.Wanted.{HasWantedRow, words_of_want};
ghost use Rattle.heaps_api.specs.Reading.{AreRegisters, AreWaiting, IsNamedBy, StandsIn};
ghost use Rattle.heaps_api.specs.Changing.{CanMake, CanSendTo, Exits, Gains, GainsBin, GainsFun, IsNext, Looks, PopsInto, Pushes, PutsWord, ReceivesInto, SendsTo, Spawns, CollectsRows};
ghost use Rattle.heaps_api.specs.Written.{CanBuild, GainsTerm, want_of_items};
ghost use Rattle.heaps_api.specs.declared.wanted.Want.TheVariants.{Message, Process as ForProcess, Words};

use crate::making::Make;
use crate::waiting::{Message, Waiting};
use crate::wanted::Want;
use atom_names::AtomNames;
use item_build::BuildStop;
use line_io::{Sink, SinkFault};
use plain_machine::{Depth, Reg};
use plain_term::Item;
use word_mem::WordMem;

/// A memory of processes: rows, each with registers, a stack and a queue, whose terms stand in its words.
///
/// Which words a process has, when they are collected and where records lie is the memory's own. Words that were read are no
/// longer those of a term after a call that looks for room, sends, sweeps or collects.
pub trait Heaps {
    /// What it means.
    ghost meaning: { Meaning Self };

    /// The words.
    fn mem(&self) -> &WordMem
        ensures { result.now ≡ meaning.mem self.now };

    /// How many rows there are.
    fn count(&self) -> usize
        ensures { result ≡ length (meaning.numbers self.now) };

    /// The number of a row.
    fn number(&self, row: usize) -> u64
        requires { row < length (meaning.numbers self.now) }
        ensures { result ≡ slice_index (meaning.numbers self.now) row };

    /// The row with this number.
    fn find(&self, number: u64) -> Option<usize>
        requires { AreRising 0 (meaning.numbers self.now) }
        ensures among { is_some result ≡ list_any (λ n. n == number) (meaning.numbers self.now) }
        ensures place { IfSome result (λ row. (row < length (meaning.numbers self.now)) × (slice_index (meaning.numbers self.now) row ≡ number)) };

    /// How many rows have a number of at most this: the place of the first one above.
    fn first_above(&self, number: u64) -> usize
        requires { AreRising 0 (meaning.numbers self.now) }
        ensures within { result ≤ length (meaning.numbers self.now) }
        ensures low { (k : ℕ) → k < result → slice_index (meaning.numbers self.now) k ≤ number }
        ensures high { (k : ℕ) → result ≤ k → k < length (meaning.numbers self.now) → number < slice_index (meaning.numbers self.now) k };

    /// The words of a row's registers.
    fn regs(&self, row: usize) -> &[u64; 16]
        requires { row < length (meaning.numbers self.now) }
        ensures { AreRegisters meaning row self.now result.now };

    /// The messages of a row, from the first.
    fn waiting(&self, row: usize) -> Waiting
        requires lives { Lives meaning self.now }
        requires row { row < length (meaning.numbers self.now) }
        ensures waits { meaning.waits self.now result }
        ensures count { length (meaning.messages self.now result) ≡ result.count }
        ensures words { AreWaiting meaning row self.now (meaning.messages self.now result) };

    /// The next message.
    fn message(&self, at: Waiting) -> Message
        requires waits { meaning.waits self.now at }
        requires some { 0 < at.count }
        ensures waits { meaning.waits self.now result.rest }
        ensures words { meaning.messages self.now at ≡ result.word ∷ meaning.messages self.now result.rest }
        ensures count { result.rest.count + 1 ≡ at.count };

    /// Looks for the words that are wanted, where need be after a collection; whether there are so many.
    fn make_room(&mut self, want: Want) -> bool
        requires ready { CanAsk meaning self.old }
        requires row { HasWantedRow want (meaning.numbers self.old) }
        requires few { words_of_want want < 2 ^ 64 }
        ensures { Looks meaning want self.old self.new result };

    /// Puts a word of this row's process, that of a term, into its register.
    fn put(&mut self, row: usize, r: Reg, w: u64)
        requires ready { CanAsk meaning self.old }
        requires row { row < length (meaning.numbers self.old) }
        requires register { IsRegister r }
        ensures { PutsWord meaning row r w self.old self.new };

    /// Builds a term in a register.
    fn gain(&mut self, row: usize, r: Reg, make: Make)
        requires ready { CanAsk meaning self.old }
        requires row { row < length (meaning.numbers self.old) }
        requires register { IsRegister r }
        requires can { CanMake meaning row make self.old }
        requires room { meaning.has_room (Words row (words_of_make make) 0) self.old }
        ensures { Gains meaning row r make self.old self.new };

    /// Builds a written term in a register, from its items and the `serial` shared binaries so far; how many it brings. `scratch` is
    /// for words of parts.
    fn gain_term(
        &mut self,
        names: &AtomNames,
        row: usize,
        r: Reg,
        scratch: &mut [u64],
        serial: u64,
        code: &[Item],
    ) -> Result<u64, BuildStop>
        requires ready { CanAsk meaning self.old }
        requires row { row < length (meaning.numbers self.old) }
        requires register { IsRegister r }
        requires names { AreNames names.now }
        requires term { HasTerm names.now code.now }
        requires can { CanBuild meaning serial (length names.now) self.old }
        requires enough { length code.now ≤ length scratch.old }
        requires few { serial < 2 ^ 60 }
        requires room { meaning.has_room (want_of_items row code.now) self.old }
        ensures gains { GainsTerm meaning names.now row r serial code.now self.old self.new result }
        ensures scratch { length scratch.new ≡ length scratch.old };

    /// Builds a binary of `len` equal bytes in a register, in a record with this serial, which is the next one.
    fn gain_bin(&mut self, row: usize, r: Reg, serial: u64, len: u64, byte: u8)
        requires ready { CanAsk meaning self.old }
        requires row { row < length (meaning.numbers self.old) }
        requires register { IsRegister r }
        requires next { IsNext meaning self.old serial }
        requires most { len ≤ MOST_FILL }
        requires room { meaning.has_room (Words row 6 (4 + bin_words len)) self.old }
        ensures { GainsBin meaning row r serial len byte self.old self.new };

    /// Builds a fun of this name and arity in a register, which the process has made, with the terms of these registers as its
    /// environment. `scratch` is for their words.
    fn gain_fun(
        &mut self,
        row: usize,
        r: Reg,
        name: u64,
        arity: u64,
        scratch: &mut [u64],
        env: &[Item],
    )
        requires ready { CanAsk meaning self.old }
        requires row { row < length (meaning.numbers self.old) }
        requires register { IsRegister r }
        requires number { slice_index (meaning.numbers self.old) row < PIDS }
        requires name { name < ATOMS }
        requires arity { arity ≤ 255 }
        requires env { IsEnv env.now }
        requires enough { length env.now ≤ length scratch.old }
        requires room { meaning.has_room (Words row (6 + length env.now) 4) self.old }
        ensures gains { GainsFun meaning row r name arity env.now self.old self.new }
        ensures scratch { length scratch.new ≡ length scratch.old };

    /// Pushes a register's term on the stack.
    fn push(&mut self, row: usize, r: Reg)
        requires ready { CanAsk meaning self.old }
        requires row { row < length (meaning.numbers self.old) }
        requires register { IsRegister r }
        requires room { meaning.has_room (Words row PLACE_COST 0) self.old }
        ensures { Pushes meaning row r (Words row PLACE_COST 0) self.old self.new };

    /// Takes the term that was pushed last off the stack into a register; whether there was one.
    fn pop(&mut self, row: usize, r: Reg) -> bool
        requires ready { CanAsk meaning self.old }
        requires row { row < length (meaning.numbers self.old) }
        requires register { IsRegister r }
        ensures { PopsInto meaning row r self.old self.new result };

    /// Takes the first message off the queue into a register; whether there was one.
    fn receive(&mut self, row: usize, r: Reg) -> bool
        requires ready { CanAsk meaning self.old }
        requires row { row < length (meaning.numbers self.old) }
        requires register { IsRegister r }
        ensures { ReceivesInto meaning row r self.old self.new result };

    /// Puts a copy of the word's term, whatever process it is a word of, last into the queue of the process with this row.
    fn send(&mut self, row: usize, w: u64)
        requires ready { CanAsk meaning self.old }
        requires row { row < length (meaning.numbers self.old) }
        requires can { CanSendTo meaning row w self.old }
        ensures { SendsTo meaning row w self.old self.new };

    /// Makes a process with this number, the last of the rows.
    fn spawn(&mut self, number: u64)
        requires ready { CanAsk meaning self.old }
        requires few { length (meaning.numbers self.old) < MOST_PROCESSES }
        requires number { number < PIDS }
        requires room { meaning.has_room ForProcess self.old }
        ensures { Spawns meaning number self.old self.new };

    /// Ends the process with this row.
    fn exit(&mut self, row: usize)
        requires ready { CanAsk meaning self.old }
        requires row { row < length (meaning.numbers self.old) }
        ensures { Exits meaning row self.old self.new };

    /// Collects the process with this row, to this depth.
    fn collect(&mut self, row: usize, depth: Depth)
        requires ready { CanAsk meaning self.old }
        requires row { row < length (meaning.numbers self.old) }
        ensures rows { CollectsRows meaning false self.old self.new }
        ensures collected { meaning.collected row depth self.old self.new };

    /// Collects every process.
    fn sweep_all(&mut self)
        requires ready { CanAsk meaning self.old }
        ensures rows { CollectsRows meaning true self.old self.new }
        ensures swept { meaning.swept_all self.old self.new };

    /// Writes the text of `counts`: every record with its count.
    fn counts<K: Sink>(&self, names: &AtomNames, sink: &mut K) -> Result<(), SinkFault>
        requires named { IsNamedBy meaning self.now (length names.now) }
        ensures written { WritesTold K.wrote K.faults sink.old sink.new (meaning.counts_text self.now names.now) result };

    /// The text of `counts` is one of each state that the memory stands for, and the image stands for it and tells the same text.
    /// Nothing is done.
    fn images_stand(&self)
        requires lives { Lives meaning self.now }
        requires rising { AreRising 0 (meaning.numbers self.now) }
        ensures counted { (named : ℕ) (s : State) → StandsIn meaning named self.now s → AreNames s.names → named ≤ length s.names
            → CountsOf s (meaning.counts_text self.now s.names) }
        ensures imaged { (named : ℕ) (s : State) → StandsIn meaning named self.now s
            → ImageStands (meaning.image self.now (length s.shared) s.next s.swept) s }
        ensures pictured { (named : ℕ) (s : State) (names : List (List ℕ)) → StandsIn meaning named self.now s → AreNames names → named ≤ length names
            → meaning.counts_text self.now names ≡ image_counts names (meaning.image self.now (length s.shared) s.next s.swept) };
}
