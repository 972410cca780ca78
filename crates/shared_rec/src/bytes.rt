// The bytes of a binary record.
ghost use Rattle.std.specs.Prelude.{◌≡◌, ℕ, ◌+◌, ◌-◌, ◌*◌, ◌/◌, ◌%◌, ◌^◌, ◌<◌, ◌≤◌, Bool, List, length, replicate, slice_index, slice_set};
ghost use Rattle.plain_term.specs.Measures.{bin_words};
ghost use Rattle.term_words.specs.Object.{IsBinRecord};
ghost use Rattle.term_words.specs.Role.{Idle};
ghost use Rattle.term_words.specs.Kept.{Keeps};
ghost use Rattle.term_build.specs.Taken.{IsFree};
ghost use Rattle.shared_rec.specs.Record.{length_in, WritesRecord};
ghost use Rattle.shared_rec.specs.Bytes.{with_byte, equal_bytes};

use crate::heads::{HEAD_WORDS, put_same};
use word_mem::WordMem;

// The word whose eight bytes are all 1.
const ONES: u64 = 72340172838076673;

/// Sets byte `i` of the binary record at `at`, from 0. Who reads the record must know of it: trees keep standing that do
/// not use its word.
pub fn put_byte(mem: &mut WordMem, at: u64, i: u64, b: u8)
    requires { at + (4 + i / 8) < length mem.old }
    ensures writes { mem.new ≡ slice_set mem.old (at + (4 + i / 8)) (with_byte (slice_index mem.old (at + (4 + i / 8))) (i % 8) b) }
    ensures made { (c : ℕ → ℕ → Bool) (serial : ℕ) (bytes : List ℕ) → IsBinRecord c mem.old at serial bytes → i < length bytes
        → IsBinRecord c mem.new at serial (slice_set bytes i b) }
    ensures kept { (c : ℕ → ℕ → Bool) → Idle c (at + (4 + i / 8)) → Keeps c c mem.old mem.new }
{
    mem.bounded();
    let place = at + (HEAD_WORDS + i / 8);
    let word = mem.get(place);
    mem.set(place, put_in_word(word, i % 8, b));
}

// The word with another byte k, from the lowest.
fn put_in_word(word: u64, k: u64, b: u8) -> u64
    requires { k < 8 }
    ensures { result ≡ with_byte word k b }
{
    let scale = 1u64 << (k * 8);
    (word / scale / 256 * 256 + b as u64) * scale + word % scale
}

/// Sets all bytes of the binary record at `at` to `b`, eight at a time. Who reads the record must know of it: trees keep
/// standing that do not use its bytes.
pub fn fill(mem: &mut WordMem, at: u64, b: u8)
    requires head { at + 4 ≤ length mem.old }
    requires bytes { at + 4 + bin_words (length_in mem.old at) ≤ length mem.old }
    ensures writes { WritesRecord (at + 4) (at + 4 + bin_words (length_in mem.old at)) mem.old mem.new }
    ensures whole { (q : ℕ) → at + 4 ≤ q → q < at + 4 + length_in mem.old at / 8 → slice_index mem.new q ≡ equal_bytes b }
    ensures rest { 0 < length_in mem.old at % 8
        → slice_index mem.new (at + 4 + length_in mem.old at / 8) ≡ equal_bytes b / 2 ^ (64 - length_in mem.old at % 8 * 8) }
    ensures made { (c : ℕ → ℕ → Bool) (serial : ℕ) (bytes : List ℕ) → IsBinRecord c mem.old at serial bytes
        → IsBinRecord c mem.new at serial (replicate (length bytes) b) }
    ensures kept { (c : ℕ → ℕ → Bool) → IsFree c (at + 4) (at + 4 + bin_words (length_in mem.old at)) → Keeps c c mem.old mem.new }
{
    mem.bounded();
    let len = mem.get(at + 3);
    put_equal(mem, at + HEAD_WORDS, len, b);
}

// Writes the words of `len` equal bytes from a place on; the bytes of the last word behind them are 0.
fn put_equal(mem: &mut WordMem, from: u64, len: u64, b: u8)
    requires { from + bin_words len ≤ length mem.old }
    ensures writes { WritesRecord from (from + bin_words len) mem.old mem.new }
    ensures whole { (q : ℕ) → from ≤ q → q < from + len / 8 → slice_index mem.new q ≡ equal_bytes b }
    ensures rest { 0 < len % 8 → slice_index mem.new (from + len / 8) ≡ equal_bytes b / 2 ^ (64 - len % 8 * 8) }
{
    mem.bounded();
    let word = b as u64 * ONES;
    let end = from + len / 8;
    put_same(mem, from, end, word);
    let rest = len % 8;
    if rest > 0 {
        mem.set(end, word >> (64 - rest * 8));
    }
}
