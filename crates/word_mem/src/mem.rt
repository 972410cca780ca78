// The memory itself.
ghost use Rattle.std.specs.Prelude.{◌≡◌, ℕ, ◌+◌, ◌<◌, ◌≤◌, ◌^◌, ◌⊎◌, ◌++◌, false, true, length, take, drop, slice_index, slice_index_or, slice_range, slice_set, replicate, IfOk};

use crate::fault::OpenFault;
use crate::words::{Lease, Words};
use std::alloc::Global;
use std::marker::Model;

// The most words that are copied one by one where they are asked for: a call costs more.
const FEW: u64 = 8;

/// A row of at most 16,777,216 words, seen as the list of them. The memory is freed when the value is dropped.
pub struct WordMem {
    words: Words,
    len: u64,
    lease: Lease<Global>,
    alloc: Global,
}

impl Model for WordMem {
    ghost use Rattle.std.specs.Prelude.{List, ℕ};

    ghost Value = { List ℕ };

    ghost use Rattle.word_mem.specs.Memory.{inside_words, IsWhole};

    ghost view = { inside_words };

    ghost invariant = { IsWhole };
}

impl Drop for WordMem {
    fn drop(self) {
        let WordMem {
            words,
            len: _,
            lease,
            alloc,
        } = self;
        words.free(lease, &alloc);
    }
}

impl WordMem {
    /// A memory of `words` words, each 0, or `Memory` where no such room was found.
    pub fn new(alloc: Global, words: u64) -> Result<WordMem, OpenFault>
        requires least { 1 ≤ words }
        requires most { words ≤ 2 ^ 24 }
        ensures { IfOk result (λ m. m ≡ replicate words 0) }
    {
        let Some((mut row, lease)) = Words::new(&alloc, words as usize) else {
            return Err(OpenFault::Memory);
        };
        clear(&mut row, words as usize);
        Ok(WordMem {
            words: row,
            len: words,
            lease,
            alloc,
        })
    }

    /// The number of words.
    #[inline]
    pub fn len(&self) -> u64
        ensures len { result ≡ length self.now }
        ensures most { length self.now ≤ 2 ^ 24 }
    {
        self.len
    }

    /// Does nothing. After it a proof knows that the words are few, so that places can be added without overflow.
    #[inline]
    pub fn bounded(&self)
        ensures { length self.now ≤ 2 ^ 24 }
    {
        let _len = self.len;
    }

    /// The word at a place.
    #[inline]
    pub fn get(&self, at: u64) -> u64
        requires { at < length self.now }
        ensures { result ≡ slice_index self.now at }
    {
        self.words.get(at as usize)
    }

    /// Writes the word at a place; all other words stay.
    #[inline]
    pub fn set(&mut self, at: u64, w: u64)
        requires { at < length self.old }
        ensures { self.new ≡ slice_set self.old at w }
    {
        self.words.put(at as usize, w);
    }

    /// Copies `n` words from the places from `src` on to those from `dst` on, which get the words that stood at the
    /// source before, also where the two ranges overlap; all other words stay.
    pub fn copy_words(&mut self, src: u64, dst: u64, n: u64)
        requires source { src + n ≤ length self.old }
        requires target { dst + n ≤ length self.old }
        ensures list { self.new ≡ take dst self.old ++ slice_range self.old src (src + n) ++ drop (dst + n) self.old }
        ensures same_len { length self.new ≡ length self.old }
        ensures moved { (p q : ℕ) → dst ≤ q → q < dst + n → p + dst ≡ q + src → slice_index self.new q ≡ slice_index self.old p }
        ensures kept { (q : ℕ) → (q < dst) ⊎ (dst + n ≤ q) → slice_index self.new q ≡ slice_index self.old q }
    {
        if dst < src {
            self.copy_up(src, dst, n);
        } else {
            self.copy_down(src, dst, n);
        }
    }

    /// The same to places that are apart from theirs, which costs less where the words are few.
    #[inline]
    pub fn copy_apart(&mut self, src: u64, dst: u64, n: u64)
        requires source { src + n ≤ length self.old }
        requires target { dst + n ≤ length self.old }
        requires apart { (src + n ≤ dst) ⊎ (dst + n ≤ src) }
        ensures same_len { length self.new ≡ length self.old }
        ensures moved { (p q : ℕ) → dst ≤ q → q < dst + n → p + dst ≡ q + src → slice_index self.new q ≡ slice_index self.old p }
        ensures kept { (q : ℕ) → (q < dst) ⊎ (dst + n ≤ q) → slice_index self.new q ≡ slice_index self.old q }
    {
        if n <= FEW {
            self.copy_up(src, dst, n);
        } else {
            self.copy_words(src, dst, n);
        }
    }

    // From the first word to the last, where the target does not begin above the source, or begins at or behind its end.
    #[inline]
    fn copy_up(&mut self, src: u64, dst: u64, n: u64)
        requires order { (dst ≤ src) ⊎ (src + n ≤ dst) }
        requires source { src + n ≤ length self.old }
        requires target { dst + n ≤ length self.old }
        ensures same_len { length self.new ≡ length self.old }
        ensures moved { (p q : ℕ) → dst ≤ q → q < dst + n → p + dst ≡ q + src → slice_index self.new q ≡ slice_index self.old p }
        ensures kept { (q : ℕ) → (q < dst) ⊎ (dst + n ≤ q) → slice_index self.new q ≡ slice_index self.old q }
    {
        self.bounded();
        for i in 0..n {
            let w = self.get(src + i);
            self.set(dst + i, w);
        }
    }

    // From the last word to the first, where the target lies above the source.
    fn copy_down(&mut self, src: u64, dst: u64, n: u64)
        requires above { src ≤ dst }
        requires target { dst + n ≤ length self.old }
        ensures same_len { length self.new ≡ length self.old }
        ensures moved { (p q : ℕ) → dst ≤ q → q < dst + n → p + dst ≡ q + src → slice_index self.new q ≡ slice_index self.old p }
        ensures kept { (q : ℕ) → (q < dst) ⊎ (dst + n ≤ q) → slice_index self.new q ≡ slice_index self.old q }
    {
        self.bounded();
        let mut left = n;
        while left > 0 {
            left -= 1;
            let w = self.get(src + left);
            self.set(dst + left, w);
        }
    }
}

// Writes 0 at each of the places.
fn clear(row: &mut Words, count: usize)
    requires { row.old.len ≡ count }
    ensures places { (row.new.ptr ≡ row.old.ptr) × (row.new.len ≡ count) }
    ensures zeros { row.new.items ≡ replicate count 0 }
    ensures filled { (k : ℕ) → k < count → slice_index_or row.new.filled k false ≡ true }
{
    for at in 0..count {
        row.put(at, 0);
    }
}
