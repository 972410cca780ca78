// What a record says, and its count.
ghost use Rattle.std.specs.Prelude.{◌≡◌, ℕ, ◌+◌, ◌-◌, ◌*◌, ◌/◌, ◌%◌, ◌^◌, ◌<◌, ◌≤◌, ◌↔◌, Bool, true, false, IsTrue, List, length, slice_index, slice_set};
ghost use Rattle.term_tags.specs.Words.{record_word};
ghost use Rattle.term_tags.specs.declared.records.TheConstants.{FUN_RECORD};
ghost use Rattle.term_words.specs.Object.{IsBinRecord, IsFunRecord};
ghost use Rattle.term_words.specs.Role.{Idle};
ghost use Rattle.term_words.specs.Kept.{Keeps};
ghost use Rattle.shared_rec.specs.Record.{owner_in, count_in, length_in, dropped_to};

use crate::heads::HEAD_WORDS;
use term_tags::FUN_RECORD;
use word_mem::WordMem;

/// What becomes of a record when an object ceases to name it: its words may be given back, or it has this count.
#[derive(Clone, Copy)]
pub enum Dropped {
    Freed,
    Kept(u64),
}

/// How many objects name the record.
#[inline]
pub fn count_of(mem: &WordMem, at: u64) -> u64
    requires { at + 4 ≤ length mem.now }
    ensures { result ≡ count_in mem.now at }
{
    mem.bounded();
    mem.get(at + 2)
}

/// The serial of a binary record.
#[inline]
pub fn serial_of(mem: &WordMem, at: u64) -> u64
    requires { at + 4 ≤ length mem.now }
    ensures word { result ≡ owner_in mem.now at }
    ensures serial { (c : ℕ → ℕ → Bool) (serial : ℕ) (bytes : List ℕ) → IsBinRecord c mem.now at serial bytes → result ≡ serial }
{
    mem.bounded();
    mem.get(at + 1)
}

/// The length of a binary record, in bytes.
#[inline]
pub fn len_of(mem: &WordMem, at: u64) -> u64
    requires { at + 4 ≤ length mem.now }
    ensures word { result ≡ length_in mem.now at }
    ensures bytes { (c : ℕ → ℕ → Bool) (serial : ℕ) (bytes : List ℕ) → IsBinRecord c mem.now at serial bytes → result ≡ length bytes }
{
    mem.bounded();
    mem.get(at + 3)
}

/// Whether the record is that of the funs with this name and arity.
pub fn is_fun(mem: &WordMem, at: u64, name: u64, arity: u64) -> bool
    requires { at + 4 ≤ length mem.now }
    ensures words { IsTrue result
        ↔ ((slice_index mem.now at ≡ record_word FUN_RECORD 4) × ((owner_in mem.now at / 256 ≡ name) × (owner_in mem.now at % 256 ≡ arity))) }
    ensures of_fun { (c : ℕ → ℕ → Bool) (n a : ℕ) → IsFunRecord c mem.now at n a → IsTrue result ↔ ((n ≡ name) × (a ≡ arity)) }
    ensures of_bin { (c : ℕ → ℕ → Bool) (serial : ℕ) (bytes : List ℕ) → IsBinRecord c mem.now at serial bytes → result ≡ false }
{
    mem.bounded();
    if mem.get(at) != HEAD_WORDS * 16 + FUN_RECORD {
        return false;
    }
    let owner = mem.get(at + 1);
    owner / 256 == name && owner % 256 == arity
}

/// One object more names the record.
pub fn add(mem: &mut WordMem, at: u64)
    requires places { at + 4 ≤ length mem.old }
    requires count { count_in mem.old at < 2 ^ 24 }
    ensures writes { mem.new ≡ slice_set mem.old (at + 2) (count_in mem.old at + 1) }
    ensures kept { (c : ℕ → ℕ → Bool) → Idle c (at + 2) → Keeps c c mem.old mem.new }
{
    mem.bounded();
    let count = mem.get(at + 2);
    mem.set(at + 2, count + 1);
}

/// One object fewer names the record: `Freed` exactly where it was the last.
pub fn drop_one(mem: &mut WordMem, at: u64) -> Dropped
    requires places { at + 4 ≤ length mem.old }
    requires count { 1 ≤ count_in mem.old at }
    ensures writes { mem.new ≡ slice_set mem.old (at + 2) (count_in mem.old at - 1) }
    ensures told { result ≡ dropped_to (count_in mem.old at - 1) }
    ensures kept { (c : ℕ → ℕ → Bool) → Idle c (at + 2) → Keeps c c mem.old mem.new }
{
    mem.bounded();
    let count = mem.get(at + 2) - 1;
    mem.set(at + 2, count);
    if count == 0 {
        Dropped::Freed
    } else {
        Dropped::Kept(count)
    }
}
