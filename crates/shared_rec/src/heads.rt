// New records.
ghost use Rattle.std.specs.Prelude.{◌≡◌, ℕ, ◌+◌, ◌*◌, ◌<◌, ◌≤◌, ◌⊎◌, Bool, List, [], ◌∷◌, ◌++◌, length, replicate, slice_index};
ghost use Rattle.plain_term.specs.Measures.{bin_words};
ghost use Rattle.term_tags.specs.Words.{record_word};
ghost use Rattle.term_tags.specs.declared.kinds.TheConstants.{ATOMS};
ghost use Rattle.term_tags.specs.declared.records.TheConstants.{BIN_RECORD, FUN_RECORD};
ghost use Rattle.term_words.specs.Object.{IsBinRecord, IsFunRecord};
ghost use Rattle.term_words.specs.Kept.{Keeps};
ghost use Rattle.term_build.specs.Taken.{Taken, Lie};
ghost use Rattle.shared_rec.specs.Record.{record_roles, WritesRecord};

use term_tags::{BIN_RECORD, FUN_RECORD};
use word_mem::WordMem;

/// The words of a record before its bytes: the first, which has its size and kind, its owner, its count and its length.
pub const HEAD_WORDS: u64 = 4;

/// Writes a binary record of `len` bytes, all 0, with count 0: `HEAD_WORDS` and the words of its bytes from `at` on.
pub fn write_bin(mem: &mut WordMem, at: u64, serial: u64, len: u64)
    requires { at + (4 + bin_words len) ≤ length mem.old }
    ensures writes { WritesRecord at (at + (4 + bin_words len)) mem.old mem.new }
    ensures words { Lie mem.new at (record_word BIN_RECORD (4 + bin_words len) ∷ serial ∷ 0 ∷ len ∷ replicate (bin_words len) 0) }
    ensures made { (c d : ℕ → ℕ → Bool) → Taken record_roles c d at (4 + bin_words len) → IsBinRecord d mem.new at serial (replicate len 0) }
    ensures kept { (c d : ℕ → ℕ → Bool) → Taken record_roles c d at (4 + bin_words len) → Keeps c d mem.old mem.new }
{
    mem.bounded();
    let words = HEAD_WORDS + (len + 7) / 8;
    write_head(mem, at, words * 16 + BIN_RECORD, serial, len);
    put_same(mem, at + HEAD_WORDS, at + words, 0);
}

/// Writes the record of the funs with this name and arity, with count 0: `HEAD_WORDS` from `at` on.
pub fn write_fun(mem: &mut WordMem, at: u64, name: u64, arity: u64)
    requires places { at + 4 ≤ length mem.old }
    requires name { name < ATOMS }
    requires arity { arity ≤ 255 }
    ensures writes { WritesRecord at (at + 4) mem.old mem.new }
    ensures words { Lie mem.new at (record_word FUN_RECORD 4 ∷ (name * 256 + arity) ∷ 0 ∷ 0 ∷ []) }
    ensures made { (c d : ℕ → ℕ → Bool) → Taken record_roles c d at 4 → IsFunRecord d mem.new at name arity }
    ensures kept { (c d : ℕ → ℕ → Bool) → Taken record_roles c d at 4 → Keeps c d mem.old mem.new }
{
    write_head(mem, at, HEAD_WORDS * 16 + FUN_RECORD, name * 256 + arity, 0);
}

// The first four words of a record whose count is 0.
fn write_head(mem: &mut WordMem, at: u64, first: u64, owner: u64, len: u64)
    requires { at + 4 ≤ length mem.old }
    ensures writes { WritesRecord at (at + 4) mem.old mem.new }
    ensures words { Lie mem.new at (first ∷ owner ∷ 0 ∷ len ∷ []) }
{
    mem.bounded();
    mem.set(at, first);
    mem.set(at + 1, owner);
    mem.set(at + 2, 0);
    mem.set(at + 3, len);
}

// Writes one word at all places from `from` up to `to`.
pub fn put_same(mem: &mut WordMem, from: u64, to: u64, word: u64)
    requires order { from ≤ to }
    requires places { to ≤ length mem.old }
    ensures writes { WritesRecord from to mem.old mem.new }
    ensures same { (q : ℕ) → from ≤ q → q < to → slice_index mem.new q ≡ word }
{
    for q in from..to {
        mem.set(q, word);
    }
}
