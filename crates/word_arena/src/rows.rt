// Blocks taken, cut and given back in a memory.
ghost use Rattle.std.specs.Prelude.{◌≡◌, ℕ, ◌+◌, ◌-◌, ◌<◌, ◌≤◌, length};
ghost use Rattle.word_arena.specs.Blocks.{size_at, Blocked, Reaches, IsUsed};
ghost use Rattle.word_arena.specs.Calls.{FirstFit, FreeFrom, freed};
ghost use Rattle.word_arena.specs.Changes.{TookBlock, Shortened, Turned, GaveBlock, Closed};

use crate::blocks::{KINDS, LAST_KIND, free_end, kind, next, size};
use word_mem::WordMem;

/// Takes a block from the front of the first free block that has its words.
pub(crate) fn carve(mem: &mut WordMem, at: u64, words: u64, kind: u64, owner: u64)
    requires blocked { Blocked mem.old }
    requires first { FirstFit mem.old words at }
    requires words { 2 ≤ words }
    requires kind { (1 ≤ kind) × (kind ≤ LAST_KIND) }
    ensures { TookBlock mem.old mem.new at words kind owner }
{
    mem.bounded();
    let behind = next(mem, at);
    set_free(mem, at + words, behind);
    mem.set(at, words * KINDS + kind);
    mem.set(at + 1, owner);
}

/// Cuts a block to its first words; the rest and the free block behind it become one.
pub(crate) fn shorten(mem: &mut WordMem, at: u64, words: u64)
    requires blocked { Blocked mem.old }
    requires block { IsUsed mem.old at }
    requires least { 2 ≤ words }
    requires most { words ≤ size_at mem.old at }
    ensures { Shortened mem.old mem.new at words }
{
    mem.bounded();
    let behind = next(mem, at);
    let end = free_end(mem, behind);
    let kind = kind(mem, at);
    set_free(mem, at + words, end);
    mem.set(at, words * KINDS + kind);
}

/// Gives a block in use another kind.
pub(crate) fn set_kind(mem: &mut WordMem, at: u64, kind: u64)
    requires blocked { Blocked mem.old }
    requires block { IsUsed mem.old at }
    requires kind { (1 ≤ kind) × (kind ≤ LAST_KIND) }
    ensures { Turned mem.old mem.new at kind }
{
    mem.bounded();
    let size = size(mem, at);
    mem.set(at, size * KINDS + kind);
}

/// Frees a block, which becomes one with the free words before it, from the given place on, and behind it.
pub(crate) fn merge(mem: &mut WordMem, at: u64, from: u64)
    requires blocked { Blocked mem.old }
    requires block { IsUsed mem.old at }
    requires free { FreeFrom mem.old at from }
    ensures { GaveBlock mem.old mem.new at from }
{
    mem.bounded();
    let behind = next(mem, at);
    let end = free_end(mem, behind);
    mem.set(from, (end - from) * KINDS);
}

/// Makes the words from the end of a row of blocks to the memory's end one free block.
pub(crate) fn close(mem: &mut WordMem, end: u64)
    requires row { Reaches mem.old end }
    requires inside { end ≤ length mem.old }
    ensures { Closed mem.old mem.new end }
{
    let len = mem.len();
    set_free(mem, end, len);
}

// Makes the words from one place up to another one free block, where there are any.
fn set_free(mem: &mut WordMem, from: u64, to: u64)
    requires { to ≤ length mem.old }
    ensures { mem.new ≡ freed mem.old from to }
{
    mem.bounded();
    if from < to {
        mem.set(from, (to - from) * KINDS);
    }
}
