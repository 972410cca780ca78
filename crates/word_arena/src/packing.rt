// The blocks in use brought side by side.
ghost use Rattle.std.specs.Prelude.{◌≡◌, ℕ, ◌+◌, ◌<◌, ◌≤◌, ◌⊎◌, length, slice_index};
ghost use Rattle.word_arena.specs.Blocks.{Blocked};
ghost use Rattle.word_arena.specs.Fronts.{BroughtTo, Firsts};
ghost use Rattle.word_arena.specs.Packs.{Gathered};
ghost use Rattle.word_arena.specs.Stretches.{HasRoom};

use crate::blocks::KINDS;
use crate::holes::Holes;
use word_mem::WordMem;

/// Where the blocks that were brought end, and the first stretch in which none of them begins, nor in any behind it.
#[derive(Drop)]
pub(crate) struct Front {
    pub(crate) end: u64,
    pub(crate) next: usize,
}

/// Brings the blocks in use side by side to the memory's front. The table, which knows no first block yet, is told where each
/// stretch has its first: to read the headers anew behind this would cost as much as to bring the blocks.
pub(crate) fn gather(mem: &mut WordMem, holes: &mut Holes) -> Front
    requires blocked { Blocked mem.old }
    requires room { HasRoom mem.old holes.old }
    requires none { Firsts (BroughtTo mem.old 0) holes.old.firsts.items 0 }
    ensures gathered { Gathered mem.old mem.new (length mem.old) result.end }
    ensures firsts { Firsts (BroughtTo mem.old (length mem.old)) holes.new.firsts.items result.next }
    ensures room { HasRoom mem.old holes.new }
    ensures tops { holes.new.tops ≡ holes.old.tops }
    ensures free { holes.new.free ≡ holes.old.free }
{
    let len = mem.len();
    let mut at = 0;
    let mut to = 0;
    let mut next = 0;
    while at < len {
        let header = mem.get(at);
        let size = header / KINDS;
        if header % KINDS != 0 {
            next = holes.begin(next, to);
            bring(mem, at, to, size);
            to += size;
        }
        at += size;
    }
    Front { end: to, next }
}

// Copies the words of a block down to a place, where it is another than theirs.
#[inline]
fn bring(mem: &mut WordMem, at: u64, to: u64, size: u64)
    requires order { to ≤ at }
    requires inside { at + size ≤ length mem.old }
    ensures same_len { length mem.new ≡ length mem.old }
    ensures moved { (p q : ℕ) → to ≤ q → q < to + size → p + to ≡ q + at → slice_index mem.new q ≡ slice_index mem.old p }
    ensures kept { (q : ℕ) → (q < to) ⊎ (to + size ≤ q) → slice_index mem.new q ≡ slice_index mem.old q }
{
    if to < at {
        mem.copy_words(at, to, size);
    }
}
