// Terms that come from outside registers: written ones, binaries in records, and funs.
ghost use Rattle.std.specs.Prelude.{◌≡◌, ◌+◌, ◌<◌, ◌≤◌, ◌^◌, length, slice_index};
ghost use Rattle.atom_names.specs.Names.{AreNames};
ghost use Rattle.plain_term.specs.Measures.{bin_words};
ghost use Rattle.plain_machine.specs.declared.limits.TheConstants.{MOST_FILL};
ghost use Rattle.script_grammar.specs.Names.{IsRegister};
ghost use Rattle.space_api.specs.Calls.{HasTerm, IsEnv};
ghost use Rattle.term_tags.specs.declared.kinds.TheConstants.{ATOMS, PIDS};
ghost use Rattle.heaps_api.specs.Meaning.{CanAsk};
ghost use Rattle.heaps_api.specs.Changing.{GainsBin, GainsFun, IsNext};
ghost use Rattle.heaps_api.specs.Written.{CanBuild, GainsTerm, want_of_items};
ghost use Rattle.heaps_api.specs.declared.wanted.Want.TheVariants.{Words};
ghost use Rattle.one_space.specs.Heap.{one_meaning};

use crate::entering::enter_bins;
use crate::gathering::gather;
use crate::heap::OneHeap;
use atom_names::AtomNames;
use item_build::{BuildStop, Making, build, lay_records};
use plain_machine::Reg;
use plain_term::Item;

impl OneHeap {
    /// Builds a written term in a register, from its items and the `serial` shared binaries so far; how many it brings.
    pub fn put_term(
        &mut self,
        names: &AtomNames,
        row: usize,
        r: Reg,
        scratch: &mut [u64],
        serial: u64,
        code: &[Item],
    ) -> Result<u64, BuildStop>
        requires ready { CanAsk one_meaning self.old }
        requires row { row < length (one_meaning.numbers self.old) }
        requires register { IsRegister r }
        requires names { AreNames names.now }
        requires term { HasTerm names.now code.now }
        requires can { CanBuild one_meaning serial (length names.now) self.old }
        requires enough { length code.now ≤ length scratch.old }
        requires few { serial < 2 ^ 60 }
        requires room { one_meaning.has_room (want_of_items row code.now) self.old }
        ensures gains { GainsTerm one_meaning names.now row r serial code.now self.old self.new result }
        ensures scratch { length scratch.new ≡ length scratch.old }
    {
        let mut room = self.halves.room;
        let mut making = Making {
            serial,
            head: self.halves.head,
        };
        let process = *self.halves.process(row);
        let n = lay_records(&mut self.halves.mem, &mut room, serial, scratch, code);
        let w = build(
            &mut self.halves.mem,
            &mut room,
            &mut making,
            names,
            scratch,
            &process.regs,
            n,
            code,
        )?;
        self.halves.mem.bounded();
        let bins = making.serial - serial;
        enter_bins(
            &self.halves.mem,
            &mut self.halves.bins,
            self.halves.room.top,
            bins,
        );
        self.halves.room = room;
        self.halves.head = making.head;
        self.halves.linked += bins;
        let process = self.halves.process_mut(row);
        process.regs[r.0 as usize] = w;
        Ok(bins)
    }

    /// Builds a binary of `len` equal bytes in a register, in a record with this serial, which is the next one.
    pub fn put_bin(&mut self, row: usize, r: Reg, serial: u64, len: u64, byte: u8)
        requires ready { CanAsk one_meaning self.old }
        requires row { row < length (one_meaning.numbers self.old) }
        requires register { IsRegister r }
        requires next { IsNext one_meaning self.old serial }
        requires most { len ≤ MOST_FILL }
        requires room { one_meaning.has_room (Words row 6 (4 + bin_words len)) self.old }
        ensures { GainsBin one_meaning row r serial len byte self.old self.new }
    {
        let w = self.halves.add_bin(serial, len, byte);
        let process = self.halves.process_mut(row);
        process.regs[r.0 as usize] = w;
    }

    /// Builds a fun of this name and arity in a register, which the process has made, with the terms of these registers as its
    /// environment.
    pub fn put_fun(
        &mut self,
        row: usize,
        r: Reg,
        name: u64,
        arity: u64,
        scratch: &mut [u64],
        env: &[Item],
    )
        requires ready { CanAsk one_meaning self.old }
        requires row { row < length (one_meaning.numbers self.old) }
        requires register { IsRegister r }
        requires number { slice_index (one_meaning.numbers self.old) row < PIDS }
        requires name { name < ATOMS }
        requires arity { arity ≤ 255 }
        requires env { IsEnv env.now }
        requires enough { length env.now ≤ length scratch.old }
        requires room { one_meaning.has_room (Words row (6 + length env.now) 4) self.old }
        ensures gains { GainsFun one_meaning row r name arity env.now self.old self.new }
        ensures scratch { length scratch.new ≡ length scratch.old }
    {
        let process = *self.halves.process(row);
        gather(scratch, &process.regs, env);
        let w = self
            .halves
            .add_fun(name, arity, process.number, &scratch[..env.len()]);
        let process = self.halves.process_mut(row);
        process.regs[r.0 as usize] = w;
    }
}
