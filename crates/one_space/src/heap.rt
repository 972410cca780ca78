// Two halves as a memory of processes.
ghost use Rattle.std.specs.Prelude.{◌≡◌, ◌<◌, ℕ, List, length};
ghost use Rattle.line_io.specs.Sink.{WritesTold};
ghost use Rattle.plain_machine.specs.State.{State};
ghost use Rattle.heaps_api.specs.Meaning.{Lives};
ghost use Rattle.heaps_api.specs.Reading.{IsNamedBy};
ghost use Rattle.one_space.specs.Heap.{looked_for, one_meaning};

use atom_names::AtomNames;
use counts_text::put_counts;
use heaps_api::{Heaps, Make, Message, Waiting, Want};
use item_build::BuildStop;
use line_io::{Sink, SinkFault};
use numbered_rows::{find, first_above};
use plain_machine::{Depth, PROCESS_COST, Reg};
use plain_term::Item;
use two_halves::{Halves, Row, UNUSED};
use word_mem::WordMem;

/// The free words that are looked for where a process is made: it takes none, and what a half never uses is among what it counts for.
pub const SPAWN_WORDS: u64 = PROCESS_COST - UNUSED;

/// One heap for all processes, in two halves, and the boxes of rows that are not in use.
#[derive(Drop)]
pub struct OneHeap {
    pub halves: Halves,
    pub spare: Vec<Row>,
}

/// The same words, and that an array has sixteen of them.
#[inline]
fn sixteen(words: &[u64; 16]) -> &[u64; 16]
    ensures same { result.now ≡ words.now }
    ensures count { length result.now ≡ 16 }
{
    words
}

impl Heaps for OneHeap {
    ghost meaning = { one_meaning };

    #[inline]
    fn mem(&self) -> &WordMem {
        &self.halves.mem
    }

    #[inline]
    fn count(&self) -> usize {
        self.halves.procs.len()
    }

    #[inline]
    fn number(&self, row: usize) -> u64 {
        self.halves.process(row).number
    }

    #[inline]
    fn find(&self, number: u64) -> Option<usize> {
        find(&self.halves.procs, number)
    }

    fn first_above(&self, number: u64) -> usize {
        first_above(&self.halves.procs, number)
    }

    #[inline]
    fn regs(&self, row: usize) -> &[u64; 16] {
        sixteen(&self.halves.process(row).regs)
    }

    #[inline]
    fn waiting(&self, row: usize) -> Waiting {
        let process = self.halves.process(row);
        Waiting {
            at: process.queue,
            other: 0,
            count: process.waiting,
        }
    }

    fn message(&self, at: Waiting) -> Message {
        let mem = &self.halves.mem;
        mem.bounded();
        Message {
            word: mem.get(at.at),
            rest: Waiting {
                at: mem.get(at.at + 1),
                other: 0,
                count: at.count - 1,
            },
        }
    }

    #[inline]
    fn make_room(&mut self, want: Want) -> bool {
        self.look_for(want)
    }

    #[inline]
    fn put(&mut self, row: usize, r: Reg, w: u64) {
        self.set_reg(row, r, w)
    }

    #[inline]
    fn gain(&mut self, row: usize, r: Reg, make: Make) {
        match make {
            Make::Same(shape, n, s) => self.gain_same(row, r, shape, n, s),
            Make::Pair(s, place, k, v) => self.gain_pair(row, r, s, place, k, v),
            Make::Part(s, offset, len) => self.gain_part(row, r, s, offset, len),
            Make::Ref => self.gain_ref(row, r),
            Make::Bytes(n, byte) => self.gain_bytes(row, r, n, byte),
        }
    }

    #[inline]
    fn gain_term(
        &mut self,
        names: &AtomNames,
        row: usize,
        r: Reg,
        scratch: &mut [u64],
        serial: u64,
        code: &[Item],
    ) -> Result<u64, BuildStop> {
        self.put_term(names, row, r, scratch, serial, code)
    }

    #[inline]
    fn gain_bin(&mut self, row: usize, r: Reg, serial: u64, len: u64, byte: u8) {
        self.put_bin(row, r, serial, len, byte)
    }

    #[inline]
    fn gain_fun(
        &mut self,
        row: usize,
        r: Reg,
        name: u64,
        arity: u64,
        scratch: &mut [u64],
        env: &[Item],
    ) {
        self.put_fun(row, r, name, arity, scratch, env)
    }

    #[inline]
    fn push(&mut self, row: usize, r: Reg) {
        self.push_place(row, r)
    }

    #[inline]
    fn pop(&mut self, row: usize, r: Reg) -> bool {
        self.pop_place(row, r)
    }

    #[inline]
    fn receive(&mut self, row: usize, r: Reg) -> bool {
        self.take_message(row, r)
    }

    #[inline]
    fn send(&mut self, row: usize, w: u64) {
        self.halves.send(row, w)
    }

    fn spawn(&mut self, number: u64) {
        self.add_row(number)
    }

    fn exit(&mut self, row: usize) {
        self.drop_row(row)
    }

    fn collect(&mut self, _row: usize, _depth: Depth) {
        self.halves.collect()
    }

    fn sweep_all(&mut self) {
        self.halves.collect()
    }

    fn counts<K: Sink>(&self, names: &AtomNames, sink: &mut K) -> Result<(), SinkFault> {
        let halves = &self.halves;
        put_counts(&halves.mem, &halves.bins, &halves.funs, names, sink)
    }

    fn images_stand(&self) {}
}
