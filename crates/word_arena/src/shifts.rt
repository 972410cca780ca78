// How far each place moves down when the free words before it go: a table of sums, beside the arena.
ghost use Rattle.std.specs.Prelude.{◌≡◌, ◌+◌, ◌*◌, ◌<◌, ◌≤◌, ◌^◌, length, slice_index, IfOk};
ghost use Rattle.word_arena.specs.Sums.{free_before};
ghost use Rattle.word_arena.specs.Sound.{Sound};

use crate::arena::Arena;
use crate::blocks::{count_before, first_free, free, next};
use crate::stretches::{SHORT, short_end, short_of};
use std::alloc::Global;
use word_mem::{OpenFault, WordMem};

/// For each short stretch the free words before it, and where the first free block begins in it. No call of the arena keeps
/// it up: it is taken anew by `sum_up`, and then right while the headers are as they were.
#[derive(Drop)]
pub struct Shifts {
    sums: Vec<u32>,
    firsts: Vec<u8>,
}

impl Shifts {
    ghost use Rattle.word_arena.specs.Shifts.{HasStretches, IsSummed};

    /// A table with room for so many words, of which it knows nothing yet; `Memory` where there is no room for it.
    pub fn new(alloc: Global, words: u64) -> Result<Shifts, OpenFault>
        requires { words ≤ 2 ^ 24 }
        ensures { IfOk result (λ s. HasStretches words s) }
    {
        let stretches = short_of(words) + 1;
        let Ok(sums) = vec![in alloc; 0; stretches] else {
            return Err(OpenFault::Memory);
        };
        let Ok(firsts) = vec![in alloc; 0; stretches] else {
            return Err(OpenFault::Memory);
        };
        Ok(Shifts { sums, firsts })
    }

    /// Takes up all blocks of an arena, in one walk over their headers.
    pub fn sum_up(&mut self, arena: &Arena)
        requires sound { Sound arena.now }
        requires room { HasStretches (length arena.now.mem) self.old }
        ensures { IsSummed arena.now.mem self.new }
    {
        let mut at = 0;
        let mut sum = 0;
        for short in 0..self.firsts.len() {
            let end = short_end(&arena.mem, short);
            self.sums[short] = sum as u32;
            let first = first_free(&arena.mem, at, end);
            let share = if first < end {
                first - short as u64 * SHORT
            } else {
                SHORT
            };
            self.firsts[short] = share as u8;
            let walk = count_before(&arena.mem, first, end, sum);
            at = walk.at;
            sum = walk.sum;
        }
    }

    /// The free words of the blocks that begin before a place: by so many it moves down when all blocks in use are packed.
    pub fn before(&self, mem: &WordMem, at: u64) -> u64
        requires summed { IsSummed mem.now self.now }
        requires inside { at ≤ length mem.now }
        ensures { result ≡ free_before mem.now at }
    {
        mem.bounded();
        let short = short_of(at);
        let mut sum = self.sum(short);
        let mut p = self.start(short);
        while p < at {
            sum += free(mem, p);
            p = next(mem, p);
        }
        sum
    }

    // The free words before a short stretch.
    #[inline]
    fn sum(&self, short: usize) -> u64
        requires inside { short < length self.now.sums.items }
        ensures { result ≡ slice_index self.now.sums.items short }
    {
        u64::from(self.sums[short])
    }

    // Where the first free block of a short stretch begins, or the stretch ends.
    #[inline]
    fn start(&self, short: usize) -> u64
        requires inside { short < length self.now.firsts.items }
        requires few { length self.now.firsts.items ≤ 2 ^ 24 }
        ensures { result ≡ short * SHORT + slice_index self.now.firsts.items short }
    {
        short as u64 * SHORT + u64::from(self.firsts[short])
    }
}
