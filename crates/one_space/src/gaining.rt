// Terms that are built of registers' terms.
ghost use Rattle.std.specs.Prelude.{◌≡◌, ◌<◌, length, slice_index};
ghost use Rattle.script_grammar.specs.Names.{IsRegister};
ghost use Rattle.heaps_api.specs.Meaning.{CanAsk};
ghost use Rattle.heaps_api.specs.Making.{words_of_make};
ghost use Rattle.heaps_api.specs.Changing.{CanMake, Gains};
ghost use Rattle.heaps_api.specs.declared.making.Make.TheVariants.{Bytes, Pair, Part, Ref, Same};
ghost use Rattle.heaps_api.specs.declared.wanted.Want.TheVariants.{Words};
ghost use Rattle.one_space.specs.Heap.{one_meaning};

use crate::heap::OneHeap;
use plain_machine::{Reg, Shape};
use term_build::{heap_bin, reference};
use term_verbs::{Place, map_with, repeated, sub_part};

impl OneHeap {
    /// Builds a tuple or a list of `n` times a register's term.
    pub fn gain_same(&mut self, row: usize, r: Reg, shape: Shape, n: u64, s: Reg)
        requires ready { CanAsk one_meaning self.old }
        requires row { row < length (one_meaning.numbers self.old) }
        requires register { IsRegister r }
        requires can { CanMake one_meaning row (Same shape n s) self.old }
        requires room { one_meaning.has_room (Words row (words_of_make (Same shape n s)) 0) self.old }
        ensures { Gains one_meaning row r (Same shape n s) self.old self.new }
    {
        let part = self.halves.process(row).regs[s.0 as usize];
        let w = repeated(&mut self.halves.mem, &mut self.halves.room, shape, n, part);
        let process = self.halves.process_mut(row);
        process.regs[r.0 as usize] = w;
    }

    /// Builds a register's map with a pair at a place.
    pub fn gain_pair(&mut self, row: usize, r: Reg, s: Reg, place: Place, k: Reg, v: Reg)
        requires ready { CanAsk one_meaning self.old }
        requires row { row < length (one_meaning.numbers self.old) }
        requires register { IsRegister r }
        requires can { CanMake one_meaning row (Pair s place k v) self.old }
        requires room { one_meaning.has_room (Words row (words_of_make (Pair s place k v)) 0) self.old }
        ensures { Gains one_meaning row r (Pair s place k v) self.old self.new }
    {
        let process = *self.halves.process(row);
        let w = map_with(
            &mut self.halves.mem,
            &mut self.halves.room,
            process.regs[s.0 as usize],
            place.spot,
            process.regs[k.0 as usize],
            process.regs[v.0 as usize],
        );
        let process = self.halves.process_mut(row);
        process.regs[r.0 as usize] = w;
    }

    /// Builds the `len` bytes from byte `offset` on of a register's binary.
    pub fn gain_part(&mut self, row: usize, r: Reg, s: Reg, offset: u64, len: u64)
        requires ready { CanAsk one_meaning self.old }
        requires row { row < length (one_meaning.numbers self.old) }
        requires register { IsRegister r }
        requires can { CanMake one_meaning row (Part s offset len) self.old }
        requires room { one_meaning.has_room (Words row (words_of_make (Part s offset len)) 0) self.old }
        ensures { Gains one_meaning row r (Part s offset len) self.old self.new }
    {
        let binary = self.halves.process(row).regs[s.0 as usize];
        let w = sub_part(
            &mut self.halves.mem,
            &mut self.halves.room,
            binary,
            offset,
            len,
        );
        let process = self.halves.process_mut(row);
        process.regs[r.0 as usize] = w;
    }

    /// Builds a reference that the process has not made before.
    pub fn gain_ref(&mut self, row: usize, r: Reg)
        requires ready { CanAsk one_meaning self.old }
        requires row { row < length (one_meaning.numbers self.old) }
        requires register { IsRegister r }
        requires room { one_meaning.has_room (Words row (words_of_make Ref) 0) self.old }
        ensures { Gains one_meaning row r Ref self.old self.new }
    {
        let process = self.halves.process(row);
        let number = process.number;
        let count = process.refs + 1;
        let w = reference(&mut self.halves.mem, &mut self.halves.room, number, count);
        let process = self.halves.process_mut(row);
        process.regs[r.0 as usize] = w;
        process.refs = count;
    }

    /// Builds a binary of `n` bytes that are all `byte`, at most 64.
    pub fn gain_bytes(&mut self, row: usize, r: Reg, n: u64, byte: u8)
        requires ready { CanAsk one_meaning self.old }
        requires row { row < length (one_meaning.numbers self.old) }
        requires register { IsRegister r }
        requires can { CanMake one_meaning row (Bytes n byte) self.old }
        requires room { one_meaning.has_room (Words row (words_of_make (Bytes n byte)) 0) self.old }
        ensures { Gains one_meaning row r (Bytes n byte) self.old self.new }
    {
        let bytes = [byte; 64];
        let w = heap_bin(
            &mut self.halves.mem,
            &mut self.halves.room,
            &bytes[..n as usize],
        );
        let process = self.halves.process_mut(row);
        process.regs[r.0 as usize] = w;
    }
}
