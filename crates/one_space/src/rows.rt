// Room for what is wanted, and what changes a row: a register, its stack, its queue, and whether it is there.
ghost use Rattle.std.specs.Prelude.{◌≡◌, ◌<◌, ◌^◌, length};
ghost use Rattle.plain_machine.specs.declared.costs.TheConstants.{PLACE_COST};
ghost use Rattle.plain_machine.specs.declared.limits.TheConstants.{MOST_PROCESSES};
ghost use Rattle.script_grammar.specs.Names.{IsRegister};
ghost use Rattle.term_tags.specs.declared.kinds.TheConstants.{PIDS};
ghost use Rattle.heaps_api.specs.Meaning.{CanAsk};
ghost use Rattle.heaps_api.specs.Wanted.{HasWantedRow, words_of_want};
ghost use Rattle.heaps_api.specs.Changing.{Exits, Looks, PopsInto, Pushes, PutsWord, ReceivesInto, Spawns};
ghost use Rattle.heaps_api.specs.declared.wanted.Want.TheVariants.{Process as ForProcess, Words};
ghost use Rattle.one_space.specs.Heap.{looked_for, one_meaning};

use crate::heap::{OneHeap, SPAWN_WORDS};
use heaps_api::Want;
use plain_machine::{MESSAGE_COST, Reg};
use two_halves::{PLACE_WORDS, Proc, fresh};

impl OneHeap {
    /// Looks for the words that are wanted, where need be after a collection; whether there are so many.
    #[inline]
    pub fn look_for(&mut self, want: Want) -> bool
        requires ready { CanAsk one_meaning self.old }
        requires row { HasWantedRow want (one_meaning.numbers self.old) }
        requires few { words_of_want want < 2 ^ 64 }
        ensures { Looks one_meaning want self.old self.new result }
    {
        self.halves.make_room(words_looked_for(want))
    }

    /// Puts the word of a term into a register.
    #[inline]
    pub fn set_reg(&mut self, row: usize, r: Reg, w: u64)
        requires ready { CanAsk one_meaning self.old }
        requires row { row < length (one_meaning.numbers self.old) }
        requires register { IsRegister r }
        ensures { PutsWord one_meaning row r w self.old self.new }
    {
        let process = self.halves.process_mut(row);
        process.regs[r.0 as usize] = w;
    }

    /// Pushes a register's term on the stack: a new place below all places and records.
    pub fn push_place(&mut self, row: usize, s: Reg)
        requires ready { CanAsk one_meaning self.old }
        requires row { row < length (one_meaning.numbers self.old) }
        requires register { IsRegister s }
        requires room { one_meaning.has_room (Words row PLACE_COST 0) self.old }
        ensures { Pushes one_meaning row s (Words row PLACE_COST 0) self.old self.new }
    {
        self.halves.mem.bounded();
        let place = self.halves.room.end - PLACE_WORDS;
        let process = *self.halves.process(row);
        self.halves.mem.set(place, process.regs[s.0 as usize]);
        self.halves.mem.set(place + 1, process.stack);
        self.halves.room.end = place;
        *self.halves.process_mut(row) = Proc {
            stack: place,
            depth: process.depth + 1,
            ..process
        };
    }

    /// Takes the term that was pushed last off the stack into a register; whether there was one.
    pub fn pop_place(&mut self, row: usize, r: Reg) -> bool
        requires ready { CanAsk one_meaning self.old }
        requires row { row < length (one_meaning.numbers self.old) }
        requires register { IsRegister r }
        ensures { PopsInto one_meaning row r self.old self.new result }
    {
        let mut process = *self.halves.process(row);
        if process.depth == 0 {
            return false;
        }
        self.halves.mem.bounded();
        let place = process.stack;
        process.regs[r.0 as usize] = self.halves.mem.get(place);
        process.stack = self.halves.mem.get(place + 1);
        process.depth -= 1;
        *self.halves.process_mut(row) = process;
        true
    }

    /// Takes the first message off the queue into a register; whether there was one.
    pub fn take_message(&mut self, row: usize, r: Reg) -> bool
        requires ready { CanAsk one_meaning self.old }
        requires row { row < length (one_meaning.numbers self.old) }
        requires register { IsRegister r }
        ensures { ReceivesInto one_meaning row r self.old self.new result }
    {
        let Some(w) = self.halves.receive(row) else {
            return false;
        };
        let process = self.halves.process_mut(row);
        process.regs[r.0 as usize] = w;
        true
    }

    /// Makes a process with this number, the last of the rows, in a spare box.
    pub fn add_row(&mut self, number: u64)
        requires ready { CanAsk one_meaning self.old }
        requires few { length (one_meaning.numbers self.old) < MOST_PROCESSES }
        requires number { number < PIDS }
        ensures { Spawns one_meaning number self.old self.new }
    {
        let Some(mut row) = self.spare.pop() else {
            unreachable!()
        };
        *row.row_mut() = fresh(number);
        self.halves.procs.push_reserved(row);
    }

    /// Ends the process with this row; its box is spare.
    pub fn drop_row(&mut self, row: usize)
        requires ready { CanAsk one_meaning self.old }
        requires row { row < length (one_meaning.numbers self.old) }
        ensures { Exits one_meaning row self.old self.new }
    {
        let row = self.halves.procs.remove(row);
        self.spare.push_reserved(row);
    }
}

// The free words that are looked for.
#[inline]
fn words_looked_for(want: Want) -> u64
    requires { looked_for want < 2 ^ 64 }
    ensures { result ≡ looked_for want }
{
    match want {
        Want::Words(_, n, records) => n + records,
        Want::Message(_, flat) => MESSAGE_COST + flat,
        Want::Process => SPAWN_WORDS,
    }
}
