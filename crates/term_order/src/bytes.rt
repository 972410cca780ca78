// The order of the bytes of binaries.
ghost use Rattle.std.specs.Prelude.{◌≡◌, ℕ, ◌<◌, ◌≤◌, List};
ghost use Rattle.plain_term.specs.Order.{bytes_order};
ghost use Rattle.term_read.specs.Look.{HasBytes};
ghost use Rattle.term_order.specs.Own.{IsBytes, byte_in};

use std::cmp::Ordering;
use term_read::Bytes;
use word_mem::WordMem;

/// The order of two binaries by their bytes from the left, a proper prefix being less.
pub fn order_bytes(mem: &WordMem, b: Bytes, d: Bytes) -> Ordering
    requires first { HasBytes mem.now b }
    requires second { HasBytes mem.now d }
    ensures { (xs ys : List ℕ) → IsBytes mem.now b xs → IsBytes mem.now d ys → result ≡ bytes_order xs ys }
{
    let most = b.len.min(d.len);
    let start = equal_words(mem, b, d, most);
    for i in start..most {
        let x = byte(mem, b, i);
        let y = byte(mem, d, i);
        if x != y {
            return x.cmp(&y);
        }
    }
    b.len.cmp(&d.len)
}

// How many of the first bytes lie in whole words that are equal, where both begin with a word.
fn equal_words(mem: &WordMem, b: Bytes, d: Bytes, most: u64) -> u64
    requires first { HasBytes mem.now b }
    requires second { HasBytes mem.now d }
    requires least { (most ≤ b.len) × (most ≤ d.len) }
    ensures few { result ≤ most }
    ensures same { (k : ℕ) → k < result → byte_in mem.now b k ≡ byte_in mem.now d k }
{
    mem.bounded();
    if b.start % 8 != 0 {
        return 0;
    }
    if d.start % 8 != 0 {
        return 0;
    }
    let mut at = 0;
    while most - at >= 8 {
        let x = mem.get(b.first + (b.start + at) / 8);
        let y = mem.get(d.first + (d.start + at) / 8);
        if x != y {
            return at;
        }
        at += 8;
    }
    at
}

/// Byte `i` of a binary, from 0.
pub fn byte(mem: &WordMem, b: Bytes, i: u64) -> u8
    requires bytes { HasBytes mem.now b }
    requires below { i < b.len }
    ensures { result ≡ byte_in mem.now b i }
{
    mem.bounded();
    let at = b.start + i;
    let word = mem.get(b.first + at / 8);
    ((word >> (at % 8 * 8)) % 256) as u8
}
