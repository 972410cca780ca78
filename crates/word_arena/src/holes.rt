// The table beside the memory: of each stretch of 64 words where its first block begins, and its greatest free block.
ghost use Rattle.std.specs.Prelude.{◌≡◌, ◌≢◌, ℕ, ◌+◌, ◌*◌, ◌/◌, ◌<◌, ◌≤◌, ◌^◌, List, length, replicate, IfOk, slice_index};
ghost use Rattle.word_arena.specs.Blocks.{size_at, Blocked, BlockBegins};

use crate::blocks::{free_words, greatest, next};
use crate::stretches::{STRETCH, stretch_end, stretch_of};
use crate::tops::Tops;
use std::alloc::{AllocError, Global};
use word_mem::WordMem;

/// What is known of the blocks, stretch by stretch, and the sum of free words.
#[derive(Drop)]
pub(crate) struct Holes {
    pub(crate) tops: Tops,
    pub(crate) firsts: Vec<u8>,
    pub(crate) free: u64,
}

impl Holes {
    ghost use Rattle.word_arena.specs.Fronts.{TellsFirst, EndsRow};
    ghost use Rattle.word_arena.specs.Stretches.{IsFirst, Right, IsStart, HasRoom, Agrees, Settled};

    /// A table with room for so many words, of which it knows nothing yet.
    pub(crate) fn new(alloc: Global, words: u64) -> Result<Holes, AllocError>
        requires { words ≤ 2 ^ 24 }
        ensures { IfOk result (λ h. (mem : List ℕ) → length mem ≡ words → HasRoom mem h) }
    {
        let tops = Tops::new(alloc, stretch_of(words))?;
        let firsts = vec![in alloc; 0; tops.len()]?;
        Ok(Holes {
            tops,
            firsts,
            free: 0,
        })
    }

    /// Where the first block of a stretch begins, or the stretch ends.
    pub(crate) fn start(&self, stretch: usize) -> u64
        requires inside { stretch < length self.now.firsts.items }
        requires few { length self.now.firsts.items ≤ 2 ^ 24 }
        ensures { result ≡ stretch * STRETCH + slice_index self.now.firsts.items stretch }
    {
        stretch as u64 * STRETCH + u64::from(self.firsts[stretch])
    }

    /// Brings a stretch up to date, of which the first block at or behind its start is known, and tells that of the next.
    pub(crate) fn settle(&mut self, mem: &WordMem, stretch: usize, from: u64) -> u64
        requires blocked { Blocked mem.now }
        requires room { HasRoom mem.now self.old }
        requires inside { stretch < length self.old.firsts.items }
        requires start { IsStart mem.now stretch from }
        ensures right { Right mem.now self.new.firsts.items self.new.tops stretch }
        ensures settled { Settled mem.now self.old self.new }
        ensures next { IsStart mem.now (stretch + 1) result }
    {
        let end = stretch_end(mem, stretch);
        let walk = greatest(mem, from, end);
        self.tops.set(stretch, walk.most);
        let first = if from < end {
            from - stretch as u64 * STRETCH
        } else {
            STRETCH
        };
        self.firsts[stretch] = first as u8;
        walk.at
    }

    /// Brings the stretch of a block up to date, whose first block is known.
    pub(crate) fn settle_at(&mut self, mem: &WordMem, at: u64)
        requires blocked { Blocked mem.now }
        requires room { HasRoom mem.now self.old }
        requires block { BlockBegins mem.now at }
        requires first { IsFirst mem.now (at / STRETCH) (slice_index self.old.firsts.items (at / STRETCH)) }
        ensures right { Right mem.now self.new.firsts.items self.new.tops (at / STRETCH) }
        ensures settled { Settled mem.now self.old self.new }
    {
        let stretch = stretch_of(at);
        let from = self.start(stretch);
        self.settle(mem, stretch, from);
    }

    /// Brings the stretch of a place in a block, or at its end, up to date where it is another than that of the block.
    pub(crate) fn settle_behind(&mut self, mem: &WordMem, block: u64, at: u64)
        requires blocked { Blocked mem.now }
        requires room { HasRoom mem.now self.old }
        requires block { BlockBegins mem.now block }
        requires place { (block ≤ at) × (at ≤ block + size_at mem.now block) }
        ensures right { at / STRETCH ≢ block / STRETCH → Right mem.now self.new.firsts.items self.new.tops (at / STRETCH) }
        ensures settled { Settled mem.now self.old self.new }
    {
        let stretch = stretch_of(at);
        if stretch != stretch_of(block) {
            let from = next(mem, block);
            self.settle(mem, stretch, from);
        }
    }

    /// Takes up all blocks of a memory, and sums their free words up.
    pub(crate) fn renew(&mut self, mem: &WordMem)
        requires blocked { Blocked mem.now }
        requires room { HasRoom mem.now self.old }
        ensures { Agrees mem.now self.new }
    {
        self.take_up(mem);
        self.free = free_words(mem);
    }

    /// Takes up all blocks of a memory whose free words are summed up already.
    pub(crate) fn take_up(&mut self, mem: &WordMem)
        requires blocked { Blocked mem.now }
        requires room { HasRoom mem.now self.old }
        ensures room { HasRoom mem.now self.new }
        ensures right { (i : ℕ) → i < length self.new.firsts.items → Right mem.now self.new.firsts.items self.new.tops i }
        ensures free { self.new.free ≡ self.old.free }
    {
        self.tops.clear();
        let mut at = 0;
        for stretch in 0..self.firsts.len() {
            at = self.settle(mem, stretch, at);
        }
    }

    /// Tells no stretch of a first block, nor of a free one.
    pub(crate) fn empty(&mut self)
        ensures firsts { self.new.firsts.items ≡ replicate (length self.old.firsts.items) STRETCH }
        ensures tops { self.new.tops ≡ replicate (length self.old.tops) 0 }
        ensures free { self.new.free ≡ self.old.free }
    {
        self.tops.clear();
        self.firsts.fill(STRETCH as u8);
    }

    /// Tells the stretch of a place that a block begins there, where it has none that begins before it. Stretches from `next` on
    /// have none yet; from the answer on they have none still.
    #[inline]
    pub(crate) fn begin(&mut self, next: usize, at: u64) -> usize
        requires inside { at / STRETCH < length self.old.firsts.items }
        ensures { TellsFirst self.old self.new next result at }
    {
        let stretch = stretch_of(at);
        if stretch < next {
            return next;
        }
        self.firsts[stretch] = (at % STRETCH) as u8;
        stretch + 1
    }

    /// Tells that all words from a place on are one free block, where there are any.
    pub(crate) fn end_row(&mut self, mem: &WordMem, next: usize, at: u64)
        requires room { HasRoom mem.now self.old }
        ensures { EndsRow (length mem.now) self.old self.new next at }
    {
        let len = mem.len();
        if at < len {
            self.begin(next, at);
            self.tops.set(stretch_of(at), len - at);
        }
    }
}
