// Blocks read in a memory.
ghost use Rattle.std.specs.Prelude.{◌≡◌, ℕ, ◌+◌, ◌-◌, ◌<◌, ◌≤◌, ◌≢◌, ◌⊎◌, length, slice_index, IfSome, IfNone};
ghost use Rattle.word_arena.specs.Blocks.{size_at, kind_at, free_at, Blocked, BlockBegins, IsBoundary, free_of};
ghost use Rattle.word_arena.specs.Calls.{free_end};
ghost use Rattle.word_arena.specs.Sums.{free_before};

use word_mem::WordMem;

/// A header is the block's size times this number, and its kind.
pub const KINDS: u64 = 16;

/// The last kind of block; kinds count from 1, and 0 is that of a free block.
pub const LAST_KIND: u64 = 8;

/// The words of the block at a place.
pub(crate) fn size(mem: &WordMem, at: u64) -> u64
    requires { at < length mem.now }
    ensures { result ≡ size_at mem.now at }
{
    mem.get(at) / KINDS
}

/// The kind of the block at a place.
pub(crate) fn kind(mem: &WordMem, at: u64) -> u64
    requires { at < length mem.now }
    ensures { result ≡ kind_at mem.now at }
{
    mem.get(at) % KINDS
}

/// The free words of the block at a place.
pub(crate) fn free(mem: &WordMem, at: u64) -> u64
    requires { at < length mem.now }
    ensures { result ≡ free_at mem.now at }
{
    if kind(mem, at) == 0 { size(mem, at) } else { 0 }
}

/// Where the next block begins behind the one at a place, or the memory's end.
pub(crate) fn next(mem: &WordMem, at: u64) -> u64
    requires blocked { Blocked mem.now }
    requires block { BlockBegins mem.now at }
    ensures value { result ≡ at + size_at mem.now at }
    ensures stop { IsBoundary mem.now result }
    ensures after { at < result }
{
    mem.bounded();
    at + size(mem, at)
}

/// Where the words end that are free from a place on.
pub(crate) fn free_end(mem: &WordMem, at: u64) -> u64
    requires blocked { Blocked mem.now }
    requires stop { IsBoundary mem.now at }
    ensures value { result ≡ free_end mem.now at }
    ensures inside { result ≤ length mem.now }
    ensures after { at ≤ result }
{
    if at < mem.len() {
        at + free(mem, at)
    } else {
        at
    }
}

/// The first block with so many free words among those that begin from one place on and before another.
pub(crate) fn first_fit(mem: &WordMem, from: u64, end: u64, words: u64) -> Option<u64>
    requires blocked { Blocked mem.now }
    requires from { IsBoundary mem.now from }
    requires end { end ≤ length mem.now }
    ensures none { IfNone result ((p : ℕ) → BlockBegins mem.now p → from ≤ p → p < end → free_at mem.now p < words) }
    ensures begins { IfSome result (λ at. BlockBegins mem.now at) }
    ensures inside { IfSome result (λ at. (from ≤ at) × (at < end)) }
    ensures fits { IfSome result (λ at. words ≤ free_at mem.now at) }
    ensures first { IfSome result (λ at. (p : ℕ) → BlockBegins mem.now p → from ≤ p → p < at → free_at mem.now p < words) }
{
    mem.bounded();
    let mut at = from;
    while at < end {
        if words <= free(mem, at) {
            return Some(at);
        }
        at = next(mem, at);
    }
    None
}

/// Where the free block begins that ends at a place, among the blocks that begin from one place on and before another;
/// where none does, the place itself.
pub(crate) fn free_before(mem: &WordMem, from: u64, end: u64, at: u64) -> u64
    requires blocked { Blocked mem.now }
    requires from { IsBoundary mem.now from }
    requires end { end ≤ at }
    requires at { at ≤ length mem.now }
    ensures place { (result ≡ at) ⊎ (BlockBegins mem.now result × (kind_at mem.now result ≡ 0) × (result + size_at mem.now result ≡ at)) }
    ensures none { result ≡ at → (p : ℕ) → BlockBegins mem.now p → from ≤ p → p < end → kind_at mem.now p ≡ 0 → p + size_at mem.now p ≢ at }
{
    mem.bounded();
    let mut p = from;
    while p < end {
        if p + free(mem, p) == at {
            return p;
        }
        p = next(mem, p);
    }
    at
}

/// The most free words of a block among some, and where the next block begins behind them.
#[derive(Drop)]
pub(crate) struct Walk {
    pub(crate) most: u64,
    pub(crate) at: u64,
}

/// Walks over the blocks that begin from one place on and before another.
pub(crate) fn greatest(mem: &WordMem, from: u64, end: u64) -> Walk
    requires blocked { Blocked mem.now }
    requires from { IsBoundary mem.now from }
    requires end { end ≤ length mem.now }
    ensures above { (p : ℕ) → BlockBegins mem.now p → from ≤ p → p < end → free_at mem.now p ≤ result.most }
    ensures met { 0 < result.most → (p : ℕ) × BlockBegins mem.now p × (from ≤ p) × (p < end) × (free_at mem.now p ≡ result.most) }
    ensures stop { IsBoundary mem.now result.at }
    ensures past { end ≤ result.at }
    ensures next { (p : ℕ) → BlockBegins mem.now p → from ≤ p → end ≤ p → result.at ≤ p }
{
    mem.bounded();
    let mut most = 0;
    let mut at = from;
    while at < end {
        most = most.max(free(mem, at));
        at = next(mem, at);
    }
    Walk { most, at }
}

/// The first free block among those that begin from one place on and before another; where none is free, the first block
/// behind them, or the memory's end.
pub(crate) fn first_free(mem: &WordMem, from: u64, end: u64) -> u64
    requires blocked { Blocked mem.now }
    requires from { IsBoundary mem.now from }
    requires end { end ≤ length mem.now }
    ensures stop { IsBoundary mem.now result }
    ensures after { from ≤ result }
    ensures passed { (p : ℕ) → BlockBegins mem.now p → from ≤ p → p < result → (p < end) × (1 ≤ kind_at mem.now p) }
{
    mem.bounded();
    let mut at = from;
    while at < end {
        if kind(mem, at) == 0 {
            return at;
        }
        at = next(mem, at);
    }
    at
}

/// The free words before a block, and where it begins.
#[derive(Drop)]
pub(crate) struct Count {
    pub(crate) sum: u64,
    pub(crate) at: u64,
}

/// Counts on over the blocks that begin from one place on and before another: `sum` words are free before the first.
pub(crate) fn count_before(mem: &WordMem, from: u64, end: u64, sum: u64) -> Count
    requires blocked { Blocked mem.now }
    requires from { IsBoundary mem.now from }
    requires end { end ≤ length mem.now }
    requires sum { sum ≡ free_before mem.now from }
    ensures sum { result.sum ≡ free_before mem.now result.at }
    ensures stop { IsBoundary mem.now result.at }
    ensures past { end ≤ result.at }
    ensures next { (p : ℕ) → BlockBegins mem.now p → from ≤ p → end ≤ p → result.at ≤ p }
{
    mem.bounded();
    let mut sum = sum;
    let mut at = from;
    while at < end {
        sum += free(mem, at);
        at = next(mem, at);
    }
    Count { sum, at }
}

/// The free words of all blocks.
pub(crate) fn free_words(mem: &WordMem) -> u64
    requires { Blocked mem.now }
    ensures { result ≡ free_of mem.now }
{
    let len = mem.len();
    let mut all = 0;
    let mut at = 0;
    while at < len {
        all += free(mem, at);
        at = next(mem, at);
    }
    all
}
