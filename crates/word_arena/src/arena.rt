// The arena and its calls.
ghost use Rattle.std.specs.Prelude.{◌≡◌, ◌≢◌, ℕ, ◌+◌, ◌-◌, ◌<◌, ◌≤◌, List, length, slice_set, IfOk, IfSome, IfNone};
ghost use Rattle.word_arena.specs.Blocks.{size_at, kind_at, owner_at, header, Blocks, Reaches, BlockBegins, IsUsed, free_among, free_of, FreeApart};
ghost use Rattle.word_arena.specs.Calls.{NoneFits, FirstFit, IsGreatest, freed, taken, shortened, FreeFrom, Merged, OthersStay, IsBlock, BesideUsed};
ghost use Rattle.word_arena.specs.Packs.{Packed};

use crate::blocks::{LAST_KIND, first_fit, free_before, next, size};
use crate::holes::Holes;
use crate::packing::gather;
use crate::rows::{carve, close, merge, set_kind, shorten};
use crate::stretches::{stretch_end, stretch_of};
use std::alloc::Global;
use word_mem::{OpenFault, WordMem};

/// A memory that is a row of blocks, and the table by which its free blocks are found.
#[derive(Drop)]
pub struct Arena {
    /// Lent to those who read it or write inside blocks. While the headers are as they were, the arena stays sound; after
    /// others were written, `relay` takes up the blocks anew.
    pub mem: WordMem,
    holes: Holes,
}

impl Arena {
    ghost use Rattle.word_arena.specs.Stretches.{HasRoom};
    ghost use Rattle.word_arena.specs.Sound.{Sound};

    /// The memory as one free block, with a table beside it; `Memory` where there is no room for the table.
    pub fn lay(alloc: Global, mem: WordMem) -> Result<Arena, OpenFault>
        requires { 2 ≤ length mem }
        ensures sound { IfOk result (λ a. Sound a) }
        ensures mem { IfOk result (λ a. a.mem ≡ freed mem 0 (length mem)) }
        ensures free { IfOk result (λ a. free_of a.mem ≡ length mem) }
        ensures apart { IfOk result (λ a. FreeApart a.mem) }
    {
        let Ok(holes) = Holes::new(alloc, mem.len()) else {
            return Err(OpenFault::Memory);
        };
        let mut arena = Arena { mem, holes };
        arena.relay(0);
        Ok(arena)
    }

    /// Takes up the blocks that stand before a place, and makes all behind them one free block, as after a slide.
    pub fn relay(&mut self, end: u64)
        requires room { HasRoom self.old.mem self.old.holes }
        requires row { Reaches self.old.mem end }
        requires inside { end ≤ length self.old.mem }
        ensures sound { Sound self.new }
        ensures mem { self.new.mem ≡ freed self.old.mem end (length self.old.mem) }
        ensures free { (places : List ℕ) → Blocks self.old.mem 0 places end → free_of self.new.mem + end
            ≡ free_among self.old.mem places + length self.old.mem }
        ensures apart { ((p : ℕ) → BlockBegins self.new.mem p → p < end → 1 ≤ kind_at self.new.mem p) → FreeApart self.new.mem }
    {
        close(&mut self.mem, end);
        self.holes.renew(&self.mem);
    }

    /// The place of a new block at the front of the first free block that has the words; `None` where none has.
    pub fn take(&mut self, words: u64, kind: u64, owner: u64) -> Option<u64>
        requires sound { Sound self.old }
        requires words { 2 ≤ words }
        requires kind { (1 ≤ kind) × (kind ≤ LAST_KIND) }
        ensures sound { Sound self.new }
        ensures none { IfNone result (NoneFits self.old.mem words × (self.new.mem ≡ self.old.mem)) }
        ensures first { IfSome result (λ at. FirstFit self.old.mem words at) }
        ensures beside { IfSome result (λ at. BesideUsed self.old.mem at words) }
        ensures mem { IfSome result (λ at. self.new.mem ≡ taken self.old.mem at words kind owner) }
        ensures block { IfSome result (λ at. IsBlock self.new.mem at words kind owner) }
        ensures others { IfSome result (λ at. OthersStay self.old.mem self.new.mem at) }
        ensures free { IfSome result (λ _. free_of self.new.mem + words ≡ free_of self.old.mem) }
        ensures apart { FreeApart self.old.mem → FreeApart self.new.mem }
    {
        let at = self.first_fit(words)?;
        carve(&mut self.mem, at, words, kind, owner);
        self.holes.settle_at(&self.mem, at);
        self.holes.settle_behind(&self.mem, at, at + words);
        self.holes.free -= words;
        Some(at)
    }

    /// Frees the block at a place, which becomes one with the free blocks beside it.
    pub fn give(&mut self, at: u64)
        requires sound { Sound self.old }
        requires block { IsUsed self.old.mem at }
        ensures sound { Sound self.new }
        ensures mem { Merged self.old.mem self.new.mem at }
        ensures gone { IsUsed self.new.mem at → ⊥ }
        ensures others { OthersStay self.old.mem self.new.mem at }
        ensures free { free_of self.new.mem ≡ free_of self.old.mem + size_at self.old.mem at }
        ensures apart { FreeApart self.old.mem → FreeApart self.new.mem }
    {
        let size = size(&self.mem, at);
        let from = self.free_start(at);
        merge(&mut self.mem, at, from);
        self.holes.settle_at(&self.mem, from);
        self.holes.settle_behind(&self.mem, from, at);
        self.holes.settle_behind(&self.mem, from, at + size);
        self.holes.free += size;
    }

    /// Cuts the block at a place to its first words. The rest becomes one with a free block behind it.
    pub fn cut(&mut self, at: u64, words: u64)
        requires sound { Sound self.old }
        requires block { IsUsed self.old.mem at }
        requires least { 2 ≤ words }
        requires most { words ≤ size_at self.old.mem at }
        ensures sound { Sound self.new }
        ensures mem { self.new.mem ≡ shortened self.old.mem at words }
        ensures block { IsBlock self.new.mem at words (kind_at self.old.mem at) (owner_at self.old.mem at) }
        ensures others { OthersStay self.old.mem self.new.mem at }
        ensures free { free_of self.new.mem + words ≡ free_of self.old.mem + size_at self.old.mem at }
        ensures apart { FreeApart self.old.mem → FreeApart self.new.mem }
    {
        let size = size(&self.mem, at);
        shorten(&mut self.mem, at, words);
        self.holes.settle_at(&self.mem, at);
        self.holes.settle_behind(&self.mem, at, at + words);
        let last = if words < size { at + words } else { at };
        self.holes.settle_behind(&self.mem, last, at + size);
        self.holes.free += size - words;
    }

    /// Gives the block at a place another kind.
    pub fn turn(&mut self, at: u64, kind: u64)
        requires sound { Sound self.old }
        requires block { IsUsed self.old.mem at }
        requires kind { (1 ≤ kind) × (kind ≤ LAST_KIND) }
        ensures sound { Sound self.new }
        ensures mem { self.new.mem ≡ slice_set self.old.mem at (header (size_at self.old.mem at) kind) }
        ensures block { IsBlock self.new.mem at (size_at self.old.mem at) kind (owner_at self.old.mem at) }
        ensures others { OthersStay self.old.mem self.new.mem at }
        ensures free { free_of self.new.mem ≡ free_of self.old.mem }
        ensures apart { FreeApart self.old.mem → FreeApart self.new.mem }
    {
        set_kind(&mut self.mem, at, kind);
    }

    /// Packs the blocks in use at the memory's front, in their order and word for word; all behind them is one free block.
    pub fn pack(&mut self)
        requires { Sound self.old }
        ensures sound { Sound self.new }
        ensures packed { Packed self.old.mem self.new.mem }
        ensures free { free_of self.new.mem ≡ free_of self.old.mem }
        ensures greatest { IsGreatest self.new.mem (free_of self.new.mem) }
        ensures apart { FreeApart self.new.mem }
    {
        self.holes.empty();
        let front = gather(&mut self.mem, &mut self.holes);
        close(&mut self.mem, front.end);
        self.holes.end_row(&self.mem, front.next, front.end);
    }

    /// The words of all free blocks.
    pub fn free_words(&self) -> u64
        requires { Sound self.now }
        ensures { result ≡ free_of self.now.mem }
    {
        self.holes.free
    }

    /// The words of the greatest free block, 0 where there is none.
    pub fn greatest(&self) -> u64
        requires { Sound self.now }
        ensures { IsGreatest self.now.mem result }
    {
        self.holes.tops.greatest()
    }

    /// The place of the block behind the one at a place; `None` at the end.
    pub fn next_block(&self, at: u64) -> Option<u64>
        requires sound { Sound self.now }
        requires block { BlockBegins self.now.mem at }
        ensures next { IfSome result (λ p. BlockBegins self.now.mem p × (p ≡ at + size_at self.now.mem at)) }
        ensures end { IfNone result (at + size_at self.now.mem at ≡ length self.now.mem) }
    {
        let behind = next(&self.mem, at);
        if behind < self.mem.len() {
            Some(behind)
        } else {
            None
        }
    }

    // The first free block that has so many words: in the first stretch with such a block, the first such.
    fn first_fit(&self, words: u64) -> Option<u64>
        requires sound { Sound self.now }
        requires words { 1 ≤ words }
        ensures none { IfNone result (NoneFits self.now.mem words) }
        ensures first { IfSome result (λ at. FirstFit self.now.mem words at) }
    {
        let stretch = self.holes.tops.first(words)?;
        let end = stretch_end(&self.mem, stretch);
        first_fit(&self.mem, self.holes.start(stretch), end, words)
    }

    // Where the free words before a block begin. A free block that ends at the place begins in the place's stretch, where
    // that has a block before the place, else in the last stretch before with a free block.
    fn free_start(&self, at: u64) -> u64
        requires sound { Sound self.now }
        requires block { BlockBegins self.now.mem at }
        ensures { FreeFrom self.now.mem at result }
    {
        let stretch = stretch_of(at);
        let own = self.holes.start(stretch);
        if own < at {
            return free_before(&self.mem, own, at, at);
        }
        let Some(stretch) = self.holes.tops.last_before(stretch) else {
            return at;
        };
        let end = stretch_end(&self.mem, stretch);
        free_before(&self.mem, self.holes.start(stretch), end, at)
    }
}
